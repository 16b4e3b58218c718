//! What the passes ask, from what a part and its channels are.
ghost use Rattle.buffer_stage.specs.GoodParts.{GoodPartsGoForward, GoodPartsGoBack, GoodPartsGoOn};
ghost use Rattle.buffer_stage.specs.Outputs.{GoodPartsGive};
ghost use Rattle.buffer_stage.specs.Readies.{GoodPartsGiveBack};

/// A good part whose registers stand and whose inputs fit may go forward; and then back, where the ready nets of its outputs fit; and
/// then on to its next nets. Once its forward nets stand its outputs carry what fits the parts behind it, and once its backward nets stand the ready nets of its
/// inputs are of one bit. It does nothing when it runs.
pub fn good_parts_go()
    ensures forward { GoodPartsGoForward }
    ensures back { GoodPartsGoBack }
    ensures on { GoodPartsGoOn }
    ensures give { GoodPartsGive }
    ensures give_back { GoodPartsGiveBack }
{}
