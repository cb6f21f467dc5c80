//! What follows from the definition of the documents that bytes spell. Each law is the contract of a function that does
//! nothing.

ghost use Rattle.tpl_reader.specs.Prelude.{CertificateIsReadBack, SpelledHasNoFault, SpellsOneDocument};

/// Bytes spell one document at most, and where they spell one, no fault is true of them but `Memory`. So the bytes
/// determine what `read_document` answers, memory aside: the document where they spell one, else a fault.
pub fn one_document()
    ensures one { SpellsOneDocument }
    ensures faultless { SpelledHasNoFault }
{}

/// What is written by a document's rules for trees that are read back can be its member `certificate`, where it isn't
/// too long then: it is read as just these trees, and all else as before.
pub fn certificate_is_read_back()
    ensures { CertificateIsReadBack }
{}
