//! The nets of a formula as a list, before any of them is pushed.
ghost use Rattle.std.specs.Prelude.{◌≡◌, ◌≤◌};
ghost use Rattle.std.specs.List.{slice_index_or};
ghost use Rattle.formula_nets.specs.Making.{join_net};
ghost use Rattle.formula_nets.specs.Posting.{Lists, added, join_one, listing};

use esi_base::List;
use netlist::{Formula, Half, MAX_NETS, Net, NetRefused};

/// Adds the nets of a formula to a list that will stand behind `base` nets, and tells the number of the net that
/// carries its word. `variables` are the nets that carry the variables. It calls itself as deep as the formula is nested.
pub(crate) fn list_formula(
    variables: &[u32],
    base: usize,
    formula: &Formula,
    nets: &mut List<Net>,
) -> Result<u32, NetRefused>
    requires { base ≤ MAX_NETS }
    ensures { Lists (listing variables.now base formula.now nets.old) result nets.new }
{
    match formula {
        Formula::Var(i) => Ok(variable_net(variables, *i)),
        Formula::Const(word) => add(base, Net::Const(*word), nets),
        Formula::Not(a) => {
            let a = list_formula(variables, base, a.get(), nets)?;
            add(base, Net::Not(a), nets)
        }
        Formula::And(a, b) => {
            let a = list_formula(variables, base, a.get(), nets)?;
            let b = list_formula(variables, base, b.get(), nets)?;
            add(base, Net::And(a, b), nets)
        }
        Formula::Or(a, b) => {
            let a = list_formula(variables, base, a.get(), nets)?;
            let b = list_formula(variables, base, b.get(), nets)?;
            add(base, Net::Or(a, b), nets)
        }
        Formula::Xor(a, b) => {
            let a = list_formula(variables, base, a.get(), nets)?;
            let b = list_formula(variables, base, b.get(), nets)?;
            add(base, Net::Xor(a, b), nets)
        }
        Formula::Add(a, b) => {
            let a = list_formula(variables, base, a.get(), nets)?;
            let b = list_formula(variables, base, b.get(), nets)?;
            add(base, Net::Add(a, b), nets)
        }
        Formula::Sub(a, b) => {
            let a = list_formula(variables, base, a.get(), nets)?;
            let b = list_formula(variables, base, b.get(), nets)?;
            add(base, Net::Sub(a, b), nets)
        }
        Formula::Equal(a, b) => {
            let a = list_formula(variables, base, a.get(), nets)?;
            let b = list_formula(variables, base, b.get(), nets)?;
            add(base, Net::Equal(a, b), nets)
        }
        Formula::Less(a, b) => {
            let a = list_formula(variables, base, a.get(), nets)?;
            let b = list_formula(variables, base, b.get(), nets)?;
            add(base, Net::Less(a, b), nets)
        }
        Formula::Choose(test, one, other) => {
            let test = list_formula(variables, base, test.get(), nets)?;
            let one = list_formula(variables, base, one.get(), nets)?;
            let other = list_formula(variables, base, other.get(), nets)?;
            add(base, Net::Choose(test, one, other), nets)
        }
        Formula::Slice { of, high, low } => {
            let of = list_formula(variables, base, of.get(), nets)?;
            add(
                base,
                Net::Slice {
                    of,
                    high: *high,
                    low: *low,
                },
                nets,
            )
        }
        Formula::Concat { high, low, first } => match first {
            Half::High => {
                let high = list_formula(variables, base, high.get(), nets)?;
                let low = list_formula(variables, base, low.get(), nets)?;
                add(base, Net::Concat { high, low }, nets)
            }
            Half::Low => {
                let low = list_formula(variables, base, low.get(), nets)?;
                let high = list_formula(variables, base, high.get(), nets)?;
                add(base, Net::Concat { high, low }, nets)
            }
        },
        Formula::Join { parts, so_far } => {
            let mut joined = None;
            for part in parts.as_slice() {
                let next = list_formula(variables, base, part, nets)?;
                joined = Some(join(base, *so_far, joined, next, nets)?);
            }
            Ok(joined.unwrap_or(0))
        }
    }
}

/// The net that carries a variable.
fn variable_net(variables: &[u32], i: u32) -> u32
    ensures { result ≡ slice_index_or variables.now i 0 }
{
    match variables.get(i as usize) {
        Some(net) => *net,
        None => 0,
    }
}

/// One net more, and its number, where there is room for it.
fn add(base: usize, net: Net, nets: &mut List<Net>) -> Result<u32, NetRefused>
    requires { base ≤ MAX_NETS }
    ensures { Lists (added base net nets.old) result nets.new }
{
    let count = nets.len();
    if count >= MAX_NETS - base {
        return Err(NetRefused::TooMany);
    }
    match nets.push(net) {
        Ok(()) => Ok((base + count) as u32),
        Err(_) => Err(NetRefused::NoMemory),
    }
}

/// The next value joined to what is joined so far, where there is something.
fn join(
    base: usize,
    half: Half,
    so_far: Option<u32>,
    next: u32,
    nets: &mut List<Net>,
) -> Result<u32, NetRefused>
    requires { base ≤ MAX_NETS }
    ensures { Lists (join_one base half so_far next nets.old) result nets.new }
{
    match so_far {
        None => Ok(next),
        Some(so_far) => add(base, concat(half, so_far, next), nets),
    }
}

/// A concatenation of what is joined so far and the next value.
fn concat(half: Half, so_far: u32, next: u32) -> Net
    ensures { result ≡ join_net half so_far next }
{
    match half {
        Half::High => Net::Concat {
            high: so_far,
            low: next,
        },
        Half::Low => Net::Concat {
            high: next,
            low: so_far,
        },
    }
}
