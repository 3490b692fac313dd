// What an image guarantees to a session: of its areas, and of the lines of its script.
ghost use Rattle.image_jobs.specs.Blank.{AreasAreBlank, BlankHoldsNothing, BlankNamesNone};
ghost use Rattle.image_jobs.specs.Laws.{EachLimit, MapsAreLawful, MapsAreServed, OneLimit, StaysImage};
ghost use Rattle.image_jobs.specs.Lines.{LinesAreServed};

/// The areas of an image are a lawful map, and a session serves them. An image stays one, whatever
/// bytes its banks hold.
pub fn lawful_maps()
    ensures maps { MapsAreLawful }
    ensures stays { StaysImage }
    ensures served { MapsAreServed }
{}

/// All areas of an image have one limit of values, that of the image's version.
pub fn limits()
    ensures map { OneLimit }
    ensures each { EachLimit }
{}

/// The lines of a script have values within the limit with which the script was read.
pub fn lines_fit()
    ensures { LinesAreServed }
{}

/// If the bytes of all banks are FF, so are those of each lawful area. The selector shows no
/// damage, has nothing to erase, and names no area. The map of an image shows no damage, its first
/// store area is active and has no settings, and a mount has nothing to do.
pub fn blank_maps()
    ensures areas { AreasAreBlank }
    ensures selector { BlankNamesNone }
    ensures map { BlankHoldsNothing }
{}
