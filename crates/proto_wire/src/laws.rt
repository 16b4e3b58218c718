//! What readers of messages may rely on, each as the contract of a function that does nothing.
ghost use Rattle.proto_wire.specs.AllFieldsLaws.{AllFieldsStand};
ghost use Rattle.proto_wire.specs.WrittenLaws.{FieldsAgain};

/// The fields of octets from an offset on are those that stand one after another, up to the end or to
/// the first refusal, and no others.
pub fn all_fields_law()
    ensures { AllFieldsStand }
{}

/// Fields that are written, of a varint or of octets, are read again as what they were, whatever
/// stands before and after them, and the octets of a span are those that were written.
pub fn fields_again_law()
    ensures { FieldsAgain }
{}
