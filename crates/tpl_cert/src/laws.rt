//! What follows from the definitions of trees. Each law is the contract of a function that does
//! nothing.

ghost use Rattle.tpl_cert.specs.Prelude.{CertificatesNestLittle};

/// The array that is written for trees within the limits nests little enough for a text of it to be read.
pub fn certificates_nest_little()
    ensures { CertificatesNestLittle }
{}
