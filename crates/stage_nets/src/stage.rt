//! A stage: storage of two words.
ghost use Rattle.std.specs.Prelude.{◌≡◌, ◌+◌, ◌<◌, ◌≤◌, length, IfOk, OnOk, OnErr, IsErrOf};
ghost use Rattle.netlist.specs.Plans.{IsWidth};
ghost use Rattle.net_lists.specs.Lists.{with_nets, HasSome};
ghost use Rattle.stage_nets.specs.Stage.{stage_registers, stage_ready, stage_next, stage_linked, CanLink, IsStageReady, StagesObey};

use esi_base::Word;
use net_lists::push_nets;
use netlist::{MAX_NETS, Net, NetRefused, Netlist};

/// The nets between which a stage stands, and those that it has so far.
#[derive(Clone, Copy, Debug)]
pub struct StageNets {
    /// How wide its words are.
    pub width: u32,
    /// The first of its four registers.
    pub registers: u32,
    /// The valid net of its input.
    pub valid: u32,
    /// The word of its input.
    pub word: u32,
    /// The ready net of its output.
    pub ready: u32,
    /// The ready net of its input: there is room.
    pub room: u32,
}

/// Adds the four registers of a stage, and tells the number of the first one. They are the valid bits of its first and
/// second word, and these words. The net of its output's valid is the first one, that of the word the third.
pub fn push_stage_registers(netlist: &mut Netlist, width: u32) -> Result<u32, NetRefused>
    requires { IsWidth width }
    ensures pushed { OnOk result (netlist.new ≡ with_nets netlist.old (stage_registers width)) }
    ensures number { IfOk result (λ first. first ≡ length netlist.old.nets) }
    ensures room { OnOk result (length netlist.old.nets + length (stage_registers width) ≤ MAX_NETS) }
    ensures too_many { IsErrOf result NetRefused.TooMany → MAX_NETS < length netlist.old.nets + length (stage_registers width) }
    ensures refused { OnErr result (HasSome netlist.old netlist.new (stage_registers width)) }
{
    let first = netlist.len() as u32;
    let bit = Word::zero(1);
    let word = Word::zero(width);
    let registers = [
        Net::Register { reset: bit },
        Net::Register { reset: bit },
        Net::Register { reset: word },
        Net::Register { reset: word },
    ];
    match push_nets(netlist, &registers) {
        Ok(()) => Ok(first),
        Err(refused) => Err(refused),
    }
}

/// Adds the ready net of a stage's input, and tells its number: it is 1 while the second word's valid bit is 0.
pub fn push_stage_ready(netlist: &mut Netlist, registers: u32) -> Result<u32, NetRefused>
    requires { registers + 1 < length netlist.old.nets }
    ensures pushed { OnOk result (netlist.new ≡ with_nets netlist.old (stage_ready registers)) }
    ensures number { IfOk result (λ ready. ready ≡ length netlist.old.nets) }
    ensures room { OnOk result (length netlist.old.nets + length (stage_ready registers) ≤ MAX_NETS) }
    ensures too_many { IsErrOf result NetRefused.TooMany → MAX_NETS < length netlist.old.nets + length (stage_ready registers) }
    ensures refused { OnErr result (HasSome netlist.old netlist.new (stage_ready registers)) }
{
    let ready = netlist.len() as u32;
    match push_nets(netlist, &[Net::Not(registers + 1)]) {
        Ok(()) => Ok(ready),
        Err(refused) => Err(refused),
    }
}

/// Adds the nets of what a stage holds in the next cycle, sets them as the next nets of its registers, and tells the
/// number of the first one.
pub fn push_stage_next(netlist: &mut Netlist, stage: StageNets) -> Result<u32, NetRefused>
    requires { IsStageReady netlist.old stage }
    ensures pushed { let at = length netlist.old.nets in OnOk result (netlist.new ≡ stage_linked (with_nets netlist.old (stage_next stage at)) stage.registers at) }
    ensures number { IfOk result (λ first. first ≡ length netlist.old.nets) }
    ensures room { OnOk result (length netlist.old.nets + length (stage_next stage 0) ≤ MAX_NETS) }
    ensures too_many { IsErrOf result NetRefused.TooMany → MAX_NETS < length netlist.old.nets + length (stage_next stage 0) }
    ensures refused { OnErr result (HasSome netlist.old netlist.new (stage_next stage (length netlist.old.nets))) }
{
    let at = netlist.len() as u32;
    match push_stage_operators(netlist, stage, at) {
        Ok(()) => {
            link_stage(netlist, stage.registers, at);
            Ok(at)
        }
        Err(refused) => Err(refused),
    }
}

/// The nine nets, without a register's next net.
fn push_stage_operators(netlist: &mut Netlist, stage: StageNets, at: u32) -> Result<(), NetRefused>
    requires place { at ≡ length netlist.old.nets }
    requires ready { IsStageReady netlist.old stage }
    ensures pushed { OnOk result (netlist.new ≡ with_nets netlist.old (stage_next stage at)) }
    ensures link { OnOk result (CanLink netlist.new stage.registers at) }
    ensures room { OnOk result (length netlist.old.nets + length (stage_next stage 0) ≤ MAX_NETS) }
    ensures too_many { IsErrOf result NetRefused.TooMany → MAX_NETS < length netlist.old.nets + length (stage_next stage 0) }
    ensures refused { OnErr result (HasSome netlist.old netlist.new (stage_next stage at)) }
{
    let _count = netlist.len();
    push_nets(
        netlist,
        &[
            Net::And(stage.valid, stage.room),
            Net::And(stage.registers, stage.ready),
            Net::Not(at + 1),
            Net::And(stage.registers, at + 2),
            Net::Or(stage.registers + 1, at),
            Net::Or(at + 3, at + 4),
            Net::And(at + 3, at + 4),
            Net::Choose(stage.registers + 1, stage.registers + 3, stage.word),
            Net::Choose(at + 3, stage.registers + 2, at + 7),
        ],
    )
}

/// Sets the next nets of a stage's registers.
fn link_stage(netlist: &mut Netlist, registers: u32, at: u32)
    requires { CanLink netlist.old registers at }
    ensures { netlist.new ≡ stage_linked netlist.old registers at }
{
    let _count = netlist.len();
    netlist.set_next(registers, at + 5);
    netlist.set_next(registers + 1, at + 6);
    netlist.set_next(registers + 2, at + 8);
    netlist.set_next(registers + 3, at + 7);
}

/// A stage that stands in a complete netlist stores two words, in order, in every run whose inputs have their widths; and
/// where its input keeps its refused offers it obeys the law of a stage. It does nothing when it runs.
pub fn stages_obey()
    ensures { StagesObey }
{}
