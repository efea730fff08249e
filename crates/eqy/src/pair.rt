//! Whether two designs can be compared.

ghost use Rattle.std.specs.Prelude.{◌≡◌, ◌↔◌, ◌≤◌, IsTrue, OnOk, IfErr, IsErrOf};
ghost use Rattle.eqy.specs.Command.{PairRefused, most_inputs};
ghost use Rattle.eqy.specs.Inputs.{inputs_of};
ghost use Rattle.eqy.specs.Stops.{IfRefused};

use crate::listing::count_inputs;
use crate::refusal::Refusal;
use crate::stop::Stop;
use eq_first::Port;

/// The most inputs whose values are listed.
const MOST_INPUTS: u64 = 12;

fn is_same_port(gold: &Port, gate: &Port) -> bool
    ensures { IsTrue result ↔ (gold.now ≡ gate.now) }
{
    gold.direction == gate.direction && gold.name.bytes() == gate.name.bytes()
}

fn are_same_ports(gold: &[Port], gate: &[Port]) -> bool
    ensures { IsTrue result ↔ (gold.now ≡ gate.now) }
{
    if gold.len() != gate.len() {
        return false;
    }
    for k in 0..gold.len() {
        if !is_same_port(&gold[k], &gate[k]) {
            return false;
        }
    }
    true
}

/// Refuses two designs whose ports differ, or that have too many inputs.
pub fn check_pair(gold: &[Port], gate: &[Port]) -> Result<(), Stop>
    ensures same { OnOk result (gold.now ≡ gate.now) }
    ensures narrow { OnOk result (inputs_of gold.now ≤ most_inputs) }
    ensures refused { IfErr result (λ stop. IfRefused stop (PairRefused gold.now gate.now)) }
    ensures no_fault { IsErrOf result Stop.Fault → ⊥ }
{
    if !are_same_ports(gold, gate) {
        return Err(Stop::Refused(Refusal::PortsNotYet));
    }
    let inputs = count_inputs(gold);
    if inputs > MOST_INPUTS {
        return Err(Stop::Refused(Refusal::TooWide(inputs)));
    }
    Ok(())
}
