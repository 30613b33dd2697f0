//! What the facts about a workload say together.

ghost use Rattle.s2_gen.specs.ProgramImage.{ImagesAreUnique};

/// A workload has one image: its facts leave no word open.
pub fn images_are_unique()
    ensures { ImagesAreUnique }
{}
