// Laws on every end of the program. The functions do nothing: their contracts are the laws.
ghost use Rattle.image_tool.specs.Blank.{BlanksLackLinesAlone, GenIsCarriedOut, SpecsAreEmpty};
ghost use Rattle.image_tool.specs.Blank.{LogSpecsOweNothing, MirrorSpecsOweNothing};
ghost use Rattle.image_tool.specs.Complete.{BlanksAreLawful, BlanksAreNotRefused, SoundIsCarriedOut};
ghost use Rattle.image_tool.specs.Owing.{LogsOweAlike, MirrorsOweAlike, SettingsOweAlike};

/// A command on sound files is carried out, unless the host fails or memory runs out.
pub fn sound_is_carried_out()
    ensures { SoundIsCarriedOut }
{}

/// The blank image of a generated script is lawful and never refused, whatever its store.
pub fn blanks_are_lawful()
    ensures lawful { BlanksAreLawful }
    ensures not_refused { BlanksAreNotRefused }
{}

/// The blank image of a word shows no damage and reads as no settings.
pub fn blanks_are_empty()
    ensures { SpecsAreEmpty }
{}

/// The blank image of a word owes nothing to a mount of its log, or of its mirror. So from a blank
/// image on, `boots` of `LogJobDoes` and of `MirrorJobDoes` holds with the least numbers that it
/// allows.
pub fn blanks_owe_nothing()
    ensures log { LogSpecsOweNothing }
    ensures mirror { MirrorSpecsOweNothing }
{}

/// An image owes the same to a mount, whichever list of its areas is taken: such lists differ only
/// in the unused bytes of labels. So what `boots` says of the image that a job leaves is what it
/// asks of that image for the next job.
pub fn areas_owe_alike()
    ensures settings { SettingsOweAlike }
    ensures log { LogsOweAlike }
    ensures mirror { MirrorsOweAlike }
{}

/// A job on a blank image is refused only for its lines. A generated script is carried out, unless
/// the host fails or memory runs out.
pub fn generated_is_carried_out()
    ensures lines { BlanksLackLinesAlone }
    ensures done { GenIsCarriedOut }
{}
