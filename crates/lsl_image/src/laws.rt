//! Laws of images. Each law is a function whose clause is the law; it does nothing.

ghost use Rattle.lsl_image.specs.declared.parts.ObjectParts.{ObjectParts};
ghost use Rattle.lsl_image.specs.declared.parts.WorldParts.{WorldParts};
ghost use Rattle.lsl_image.specs.Layout.{Layout};
ghost use Rattle.lsl_image.specs.SpellingLaws.{IsReadAsSpelled, IsSpelledAsRead};
ghost use Rattle.lsl_image.specs.Laws.{ObjectFaultsAreOne, ObjectsAreOne, ObjectsAreSpelled, ObjectsAreValid};
ghost use Rattle.lsl_image.specs.Laws.{ObjectsHaveNoFault, ObjectsHaveOneSpelling, ObjectsOrFaults};
ghost use Rattle.lsl_image.specs.Laws.{WorldFaultsAreOne, WorldsAreOne, WorldsAreSpelled, WorldsAreValid};
ghost use Rattle.lsl_image.specs.Laws.{WorldsHaveNoFault, WorldsHaveOneSpelling, WorldsOrFaults};

/// The bytes of an image encode one thing.
pub fn images_are_of_one()
    ensures objects { ObjectsAreOne }
    ensures worlds { WorldsAreOne }
{}

/// The bytes of an image have no fault.
pub fn images_have_no_fault()
    ensures objects { ObjectsHaveNoFault }
    ensures worlds { WorldsHaveNoFault }
{}

/// Bytes have one first fault at most.
pub fn first_faults_are_one()
    ensures objects { ObjectFaultsAreOne }
    ensures worlds { WorldFaultsAreOne }
{}

/// All bytes are an image or have a first fault: with the laws above, of one thing or exactly one fault.
pub fn images_or_faults()
    ensures objects { ObjectsOrFaults }
    ensures worlds { WorldsOrFaults }
{}

/// What is spelled is read, and what is read is spelled.
pub fn spelled_and_read()
    ensures objects { (layout : Layout ObjectParts) → IsReadAsSpelled layout × IsSpelledAsRead layout }
    ensures worlds { (layout : Layout WorldParts) → IsReadAsSpelled layout × IsSpelledAsRead layout }
{}

/// What is read is valid, where the shapes have keys: it can be written again.
pub fn images_are_valid()
    ensures objects { ObjectsAreValid }
    ensures worlds { WorldsAreValid }
{}

/// An image is the bytes that its parts have in version 1 or in version 2, and no others.
pub fn images_are_spelled()
    ensures objects { ObjectsAreSpelled }
    ensures worlds { WorldsAreSpelled }
{}

/// In each version there is at most one image of the same parts.
pub fn images_have_one_spelling()
    ensures objects { ObjectsHaveOneSpelling }
    ensures worlds { WorldsHaveOneSpelling }
{}
