//! Laws of written JSON texts.
ghost use Rattle.json_laws.specs.Written.{ObjectsAreRead, ObjectsNest, MembersAreFound, PairsAreFound, ObjectsAreUtf8, ListsAreRead, ListsNest, ListsAreUtf8, TextsAreRead, TextsAreUtf8, NumbersAreRead, TruthsAreRead, TruthsAreUtf8, SpaceMayFollow};
ghost use Rattle.json_laws.specs.Signing.{SignaturesAreRead, SignaturesAreUtf8, SignedAreObjects, PayloadsEnd};

/// An object that is written pair by pair is read as the object of its pairs (`docs/formats/schema.md`): under each
/// key stands the value of the last pair with that key, so each pair is found where the keys are distinct. It nests
/// one deeper than its values. Its text is UTF-8 where the keys and the values' texts are.
pub fn objects_are_read()
    ensures value { ObjectsAreRead }
    ensures nest { ObjectsNest }
    ensures members { MembersAreFound }
    ensures pairs { PairsAreFound }
    ensures utf8 { ObjectsAreUtf8 }
{}

/// A list that is written item by item is read as the list of its items (`docs/formats/schema.md`). It nests one deeper
/// than its items. Its text is UTF-8 where the items' texts are.
pub fn lists_are_read()
    ensures value { ListsAreRead }
    ensures nest { ListsNest }
    ensures utf8 { ListsAreUtf8 }
{}

/// The JSON string that is written for a text is read as that text (`docs/formats/schema.md`). It is UTF-8 where the
/// text is.
pub fn texts_are_read()
    ensures value { TextsAreRead }
    ensures utf8 { TextsAreUtf8 }
{}

/// The decimal digits of a number below 2^64 are read as that number (`docs/formats/schema.md`).
pub fn numbers_are_read()
    ensures { NumbersAreRead }
{}

/// `true` and `false` are read as the truth values (`docs/formats/schema.md`). They are UTF-8.
pub fn truths_are_read()
    ensures value { TruthsAreRead }
    ensures utf8 { TruthsAreUtf8 }
{}

/// White space may follow a text that is read, and changes nothing (`docs/formats/schema.md`).
pub fn space_may_follow()
    ensures { SpaceMayFollow }
{}

/// The text of a signature, with a brace before it, is read as the object whose one key `camliSig` holds the digits
/// (`docs/formats/schema.md`). It is UTF-8. Behind the payload of an object with a pair and a comma it ends the
/// object of the payload's pairs and the signature.
pub fn signatures_are_read()
    ensures value { SignaturesAreRead }
    ensures utf8 { SignaturesAreUtf8 }
    ensures whole { SignedAreObjects }
{}

/// The last marker of a blob that was written as a payload, a comma and the text of a signature stands where the
/// payload ends, whatever the payload holds (`docs/formats/schema.md`).
pub fn payloads_end()
    ensures { PayloadsEnd }
{}
