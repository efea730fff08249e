//! Elaboration: one step a concern, in the order of the refusals. Whether the design is too large is looked at before
//! anything of its size is made.

ghost use Rattle.std.specs.Prelude.{◌≡◌, ◌≤◌, ◌<◌, [], Err, None, All, IfErr, IfOk, OnOk, map, sum_by};
ghost use Rattle.eq_model.specs.Agreement.{SameDesign};
ghost use Rattle.eq_net.specs.Meaning.{cost_of};
ghost use Rattle.eq_net.specs.Net.{bits_of, most_cost, AreWords};
ghost use Rattle.eq_net.specs.Nets.{net_of};
ghost use Rattle.eq_net.specs.Tree.{trees_of as words_of};
ghost use Rattle.eq_verilog.specs.Trees.{module_tree, modules_of};
ghost use Rattle.eq_verilog.specs.BitRefusals as refusals;
ghost use Rattle.eq_verilog.specs.Costs as costs;
ghost use Rattle.eq_verilog.specs.Designs.{clock_bit, elaborated};
ghost use Rattle.eq_verilog.specs.Firsts.{first_again, first_below, first_of};
ghost use Rattle.eq_verilog.specs.Hierarchy.{module_names, reached};
ghost use Rattle.eq_verilog.specs.Nets.{bit_name, full_names};
ghost use Rattle.eq_verilog.specs.Refusals.{module_faults, IsAccepted, IsRefusedFor, Refusal};
ghost use Rattle.eq_analysis.specs.Tabling.{trees_at};
ghost use Rattle.eq_flatten.specs.Spelled.{IsModuleSpelled};
ghost use Rattle.eq_drivers.specs.Telling.{AreRegs, Tell};
ghost use Rattle.eq_layout.specs.Layout.{design_in, trees_of, AreSound, IsLaidOut};
ghost use Rattle.eq_marks.specs.Answers.{meaning};
ghost use Rattle.eq_elab.specs.Answers.{IsNetOrNoMemory, IsRefusalOrNoMemory, Refuses};
ghost use Rattle.eq_elab.specs.inner.Elaborating.{from_clash, from_clocks, from_drivers, from_init, from_undriven, AreLeft, Elaborates, IsCosted, IsWired};

use crate::checking::{clock_as_data, doubled_bit, edges, unbegun_bit, undriven_bit};
use crate::looping::named_loop;
use crate::naming::name_of;
use crate::wiring::{drivers_of, slots_of};
use eq_analysis::{Tabled, all_modules, check_modules};
use eq_assembly::assemble;
use eq_base::Memory;
use eq_budget::laws::words_are_paid;
use eq_cost::{design_cost, excess};
use eq_drivers::{Slots, reg_flags};
use eq_flatten::path_clash;
use eq_layout::{Layout, lay_out};
use eq_loops::first_loop;
use eq_names::Name;
use eq_net::laws::words_make_a_system;
use eq_net::{Driver, Net, NetInfo, Words};
use eq_verilog::laws::one_outcome;
use eq_verilog::{ElabErr, ElabKind};
use eq_vparse::{Module, Source};
use std::alloc::Global;

/// The netlist of the design with this top: of all sources' modules, whatever their order. Takes the time of the sources and
/// of the design's cost, which is at most 2,000,000.
pub fn elaborate(alloc: Global, sources: &[Source], top: &Name) -> Result<Net, ElabErr>
    requires spelled { All IsModuleSpelled (modules_of sources.now) }

    // What is answered is so: nothing is wrong, and the netlist is the sources' design and has its cost;
    ensures accepted { OnOk result (IsAccepted (modules_of sources.now) top.now) }
    ensures same { IfOk result (λ net. SameDesign (meaning net) (elaborated sources.now top.now)) }
    ensures cost { IfOk result (λ net. net.cost ≡ costs.design_cost (modules_of sources.now) top.now) }
    // or this is the first thing that is wrong,
    ensures refused { IfErr result (Refuses (modules_of sources.now) top.now) }

    // and what is so is answered.
    ensures only_ok { IsAccepted (modules_of sources.now) top.now → IsNetOrNoMemory result }
    ensures only_refused { (r : Refusal) → IsRefusedFor (modules_of sources.now) top.now r →
        IsRefusalOrNoMemory r result }
{
    one_outcome();
    match attempt(alloc, sources, top) {
        Ok(answer) => answer,
        Err(_) => Err(ElabErr::Memory),
    }
}

/// The answer, where there is memory for it.
fn attempt(alloc: Global, sources: &[Source], top: &Name) -> Result<Result<Net, ElabErr>, Memory>
    requires spelled { All IsModuleSpelled (modules_of sources.now) }
    ensures { IfOk result (Elaborates (modules_of sources.now) top.now) }
{
    let modules = all_modules(alloc, sources)?;
    match check_modules(alloc, &modules, top)? {
        Ok(tabled) => of_modules(alloc, &modules, tabled, top),
        Err(fault) => at_name(alloc, fault.kind, fault.name),
    }
}

/// A refusal that tells a name.
fn at_name(alloc: Global, kind: ElabKind, name: &Name) -> Result<Result<Net, ElabErr>, Memory>
    ensures { IfOk result (λ answer. answer ≡ Err (ElabErr.At kind name.now)) }
{
    let name = name.copy(alloc)?;
    Ok(Err(ElabErr::At { kind, name }))
}

/// A refusal that tells a bit.
fn at_bit(
    alloc: Global,
    kind: ElabKind,
    nets: &[NetInfo],
    bit: u32,
) -> Result<Result<Net, ElabErr>, Memory>
    requires there { bit < bits_of nets.now }
    ensures { IfOk result (λ answer. answer ≡
        Err (ElabErr.At kind (bit_name (map net_of nets.now) bit))) }
{
    let name = name_of(alloc, nets, bit)?;
    Ok(Err(ElabErr::At { kind, name }))
}

/// The answer where no module that is reached is refused.
fn of_modules(
    alloc: Global,
    modules: &[&Module],
    tabled: Tabled,
    top: &Name,
) -> Result<Result<Net, ElabErr>, Memory>
    requires names { tabled.names ≡ module_names (map (λ m. module_tree m.now) modules.now) }
    requires tables { trees_at tabled.tables.items ≡ map (λ m. module_tree m.now) modules.now }
    requires spelled { All IsModuleSpelled (map (λ m. module_tree m.now) modules.now) }
    requires faultless { first_of (module_faults (map (λ m. module_tree m.now) modules.now) top.now
        (reached (map (λ m. module_tree m.now) modules.now) top.now)) ≡ None }
    ensures { IfOk result (Elaborates (map (λ m. module_tree m.now) modules.now) top.now) }
{
    let Tabled { names, tables } = tabled;
    let cost = design_cost(alloc, &names, &tables, top)?;
    match excess(cost) {
        Some(number) => Ok(Err(ElabErr::TooLarge { number })),
        None => {
            let layout = lay_out(alloc, &names, modules, tables, top)?;
            of_layout(alloc, layout, top, cost)
        }
    }
}

/// The answer where the design isn't too large.
fn of_layout(
    alloc: Global,
    layout: Layout,
    top: &Name,
    cost: u64,
) -> Result<Result<Net, ElabErr>, Memory>
    requires laid { IsLaidOut top.now layout }
    requires faultless { first_of (module_faults (trees_of layout) top.now
        (reached (trees_of layout) top.now)) ≡ None }
    requires spelled { All IsModuleSpelled (trees_of layout) }
    requires left { AreLeft (trees_of layout) top.now (from_clash (design_in layout top.now)) }
    requires cost { cost ≡ costs.design_cost (trees_of layout) top.now }
    requires small { cost ≤ most_cost }
    ensures { IfOk result (Elaborates (trees_of layout.entry) top.now) }
{
    match path_clash(alloc, &layout.flat.nets)? {
        Some(name) => at_name(alloc, ElabKind::PathClash, name),
        None => of_nets(alloc, layout, top, cost),
    }
}

/// The answer where no two nets have one full name.
fn of_nets(
    alloc: Global,
    layout: Layout,
    top: &Name,
    cost: u64,
) -> Result<Result<Net, ElabErr>, Memory>
    requires laid { IsLaidOut top.now layout }
    requires sound { AreSound top.now layout }
    requires left { AreLeft (trees_of layout) top.now (from_drivers (design_in layout top.now)) }
    requires cost { cost ≡ costs.design_cost (trees_of layout) top.now }
    requires small { cost ≤ most_cost }
    ensures { IfOk result (Elaborates (trees_of layout.entry) top.now) }
{
    words_are_paid();
    let mut words = Words::new(alloc);
    let slots = slots_of(alloc, &layout, top, &mut words)?;
    match doubled_bit(&slots) {
        Some(bit) => at_bit(alloc, ElabKind::TwoDrivers, &layout.flat.nets, bit),
        None => of_slots(alloc, layout, top, slots, words, cost),
    }
}

/// The answer where no bit has two drivers.
fn of_slots(
    alloc: Global,
    layout: Layout,
    top: &Name,
    slots: Slots,
    mut words: Words,
    cost: u64,
) -> Result<Result<Net, ElabErr>, Memory>
    requires laid { IsLaidOut top.now layout }
    requires sound { AreSound top.now layout }
    requires left { AreLeft (trees_of layout) top.now (from_undriven (design_in layout top.now)) }
    requires tell { Tell layout.flat.nets.items (words_of words) (design_in layout top.now) slots }
    requires words { AreWords layout.flat.nets.items (words_of words) }
    requires single { refusals.two_drivers (design_in layout top.now) ≡ None }
    requires cost { IsCosted layout top.now (words_of words) cost }
    ensures { IfOk result (Elaborates (trees_of layout.entry) top.now) }
{
    let flags = reg_flags(alloc, &layout, top)?;
    let drivers = drivers_of(alloc, &layout, top, &flags, &slots, &mut words)?;
    let undriven = undriven_bit(alloc, &layout, top, words.as_slice(), &drivers)?;
    match undriven {
        Some(bit) => at_bit(alloc, ElabKind::Undriven, &layout.flat.nets, bit),
        None => match unbegun_bit(&flags, &slots) {
            Some(bit) => at_bit(alloc, ElabKind::NoInit, &layout.flat.nets, bit),
            None => of_drivers(alloc, layout, top, words, drivers, cost),
        },
    }
}

/// The answer where each bit that is needed has a driver, and each register an initial value.
fn of_drivers(
    alloc: Global,
    layout: Layout,
    top: &Name,
    words: Words,
    drivers: Vec<Driver>,
    cost: u64,
) -> Result<Result<Net, ElabErr>, Memory>
    requires laid { IsLaidOut top.now layout }
    requires sound { AreSound top.now layout }
    requires left { AreLeft (trees_of layout) top.now (from_clocks (design_in layout top.now)) }
    requires wired { IsWired layout top.now (words_of words) drivers.items }
    requires cost { IsCosted layout top.now (words_of words) cost }
    ensures { IfOk result (Elaborates (trees_of layout.entry) top.now) }
{
    let edges = edges(alloc, &layout, top, words.as_slice(), &drivers)?;
    if let Some(bit) = edges.astray {
        return at_bit(alloc, ElabKind::TwoClocks, &layout.flat.nets, bit);
    }
    let clock = edges.clock;
    match clock_as_data(alloc, &layout, top, words.as_slice(), &drivers, clock)? {
        Some(bit) => at_bit(alloc, ElabKind::ClockAsData, &layout.flat.nets, bit),
        None => of_clock(alloc, layout, top, words, drivers, clock, cost),
    }
}

/// The answer where nothing but a loop can be wrong.
fn of_clock(
    alloc: Global,
    layout: Layout,
    top: &Name,
    words: Words,
    drivers: Vec<Driver>,
    clock: Option<u32>,
    cost: u64,
) -> Result<Result<Net, ElabErr>, Memory>
    requires laid { IsLaidOut top.now layout }
    requires sound { AreSound top.now layout }
    requires left { AreLeft (trees_of layout) top.now [] }
    requires wired { IsWired layout top.now (words_of words) drivers.items }
    requires cost { IsCosted layout top.now (words_of words) cost }
    requires clock { clock ≡ clock_bit (design_in layout top.now) }
    requires timed { refusals.two_clocks (design_in layout top.now) ≡ None }
    ensures { IfOk result (Elaborates (trees_of layout.entry) top.now) }
{
    words_make_a_system();
    match first_loop(alloc, &layout.flat.nets, words.as_slice(), &drivers)? {
        Some(bits) => {
            let told = named_loop(alloc, &layout.flat.nets, &bits)?;
            Ok(Err(ElabErr::Loop {
                cycle: told.cycle,
                name: told.name,
            }))
        }
        None => {
            let net = assemble(alloc, layout, top, words, drivers, clock, cost)?;
            Ok(Ok(net))
        }
    }
}
