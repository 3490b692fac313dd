// What holds of every file, and of every word for a blank image.
ghost use Rattle.image_file.specs.Laws.{OneImage, NotBoth, OneFault, OneBlankImage, NoBadItem, OneBadItem};
ghost use Rattle.image_file.specs.Serving.{MayBeLoaded, MayBeServed};

/// Bytes are the file of at most one image, and then they have no fault. They have at most one
/// first fault.
pub fn one_reading()
    ensures image { OneImage }
    ensures apart { NotBoth }
    ensures fault { OneFault }
{}

/// A word describes at most one blank image, and then no item is refused and no area is missing. It
/// has at most one first bad item.
pub fn one_spec_reading()
    ensures image { OneBlankImage }
    ensures apart { NoBadItem }
    ensures item { OneBadItem }
{}

/// A flash can be loaded with the banks and bytes of a lawful image, and each of its areas suits
/// the store of its role.
pub fn lawful_use()
    ensures loaded { MayBeLoaded }
    ensures served { MayBeServed }
{}
