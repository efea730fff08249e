//! Modules one by one: which are reached, what they declare, how large their expressions are, and what is refused of them.
//!
//! - `again`: names in a row, and the first that comes again (`first_again`).
//! - `modules`: the modules of all sources (`all_modules`), the module of a name, `duplicate_module`, `no_top`.
//! - `visiting`: the modules that are reached from the top, in the order of first visit (`reached`).
//! - `unknown`, `recursion`: the refusals that look at the modules of instances (`unknown_module`, `recursive`).
//!   `hierarchy`: the graph of modules, by whose components most modules are seen not to be recursive (`IsApart`).
//! - `naming`: the nets of a module, in the order of first mention (`nets_in`). `placing`: where they begin (`offset`).
//! - `declaring`, `tables`, `tabled`: what each module declares of a name, by look-ups (`range_of`, `dir_of`, `is_reg`, ..).
//! - `duplicates`: names that a module gives twice (`duplicate_name`).
//! - `scope`, `sizes`: the net and the range of a name, and the sizes of expressions and operands (exactly `own`).
//! - `undeclared`, `selects`, `ranges`, `mentions`: unknown names, and ranges, selects and sizes (`unknown_name`, `bad_range`).
//! - `connections`: instances and gates that don't fit (`bad_connection`).
//! - `marking`, `targets`, `setting`: targets of a wrong net or with a bit twice (`bad_equation_target`, `bad_set`).
//! - `outputs`, `assigning`: what outputs are connected to, and all targets of a module (`bad_output`, `bad_target`).
//! - `faults`, `ordering`: these over all modules that are reached, and the first of all (`check_modules`).
#![tactic(auto)]

mod again;
mod assigning;
mod connections;
mod declaring;
mod duplicates;
mod faults;
mod hierarchy;
mod marking;
mod mentions;
mod modules;
mod naming;
mod ordering;
mod outputs;
mod placing;
mod ranges;
mod recursion;
mod scope;
mod selects;
mod setting;
mod sizes;
mod tabled;
mod tables;
mod targets;
mod undeclared;
mod unknown;
mod visiting;

pub use again::has_name;
pub use marking::{is_marked, mark};
pub use modules::{all_modules, duplicate_module};
pub use naming::{Mentioned, nets_in};
pub use ordering::{Fault, Tabled, check_modules};
pub use placing::{Places, bits_of, low_of, places_of};
pub use scope::{net_number, position, range, span, width};
pub use sizes::{Sizing, inner_size, operand_sizes, own, own_of_all, sizing_of};
pub use tabled::{all_tables, table_at, table_named};
pub use tables::Table;
pub use visiting::instantiated;
