//! What a module declares: of each name the first declaration of a class.

ghost use Rattle.std.specs.Prelude.{◌≡◌, ◌&&◌, ℕ, List, Some, None, map, length, slice_get, option_map, if◌then◌else◌, bytes_eq, IfOk, OnOk};
ghost use Rattle.std.specs.Option.{option_or};
ghost use Rattle.eq_verilog.specs.Trees.{item_tree, range_pair};
ghost use Rattle.eq_verilog.specs.Declarations as spec;
ghost use Rattle.eq_analysis.specs.Declaring.{is_of, declared_in, beside, AreFirsts};

use crate::again::meets;
use eq_base::Memory;
use eq_names::{Name, NameTable};
use eq_vparse::{DeclKind, Item, Range};
use std::alloc::Global;

/// Which declarations are looked for.
#[derive(Clone, Copy, Debug, PartialEq, Eq)]
pub enum Class {
    All,
    /// `input` and `output`.
    Direction,
    /// `reg`.
    Variable,
}

/// What a declaration says of its name. The range has its left index first.
#[derive(Clone, Copy, Debug, PartialEq, Eq)]
pub struct Declared {
    pub kind: DeclKind,
    pub range: Option<(u32, u32)>,
}

/// Names, each with its first declaration.
#[derive(Drop)]
pub struct Firsts {
    pub names: NameTable,
    pub found: Vec<Declared>,
}

pub fn is_direction(kind: DeclKind) -> bool
    ensures { result ≡ spec.is_direction kind }
{
    match kind {
        DeclKind::Input | DeclKind::Output => true,
        DeclKind::Wire | DeclKind::Reg => false,
    }
}

pub fn is_variable(kind: DeclKind) -> bool
    ensures { result ≡ spec.is_variable kind }
{
    match kind {
        DeclKind::Reg => true,
        DeclKind::Input | DeclKind::Output | DeclKind::Wire => false,
    }
}

fn is_of(class: Class, kind: DeclKind) -> bool
    ensures { result ≡ is_of class kind }
{
    match class {
        Class::All => true,
        Class::Direction => is_direction(kind),
        Class::Variable => is_variable(kind),
    }
}

/// The indices of a range, the left one first.
pub fn indices(range: Option<Range>) -> Option<(u32, u32)>
    ensures { result ≡ option_map range_pair range }
{
    match range {
        Some(range) => Some((range.left, range.right)),
        None => None,
    }
}

/// Puts a name behind the others with what is declared, if it is new.
fn add_first(
    names: &mut NameTable,
    found: &mut Vec<Declared>,
    name: &Name,
    declared: Declared,
) -> Result<(), Memory>
    requires same { length names.old ≡ length found.old.items }
    ensures same { OnOk result (length names.new ≡ length found.new.items) }
    ensures found { OnOk result ((n : List ℕ) → beside names.new found.new.items n ≡
        option_or (beside names.old found.old.items n)
        (if bytes_eq n name.now then Some declared else None)) }
{
    if meets(names, name)? {
        return Ok(());
    }
    Ok(found.push(declared)?)
}

/// Puts what an item declares behind the others, if it is of the class and its name is new.
fn add_item(
    names: &mut NameTable,
    found: &mut Vec<Declared>,
    class: Class,
    item: &Item,
) -> Result<(), Memory>
    requires same { length names.old ≡ length found.old.items }
    ensures same { OnOk result (length names.new ≡ length found.new.items) }
    ensures found { OnOk result ((n : List ℕ) → beside names.new found.new.items n ≡
        option_or (beside names.old found.old.items n) (declared_in class n (item_tree item.now))) }
{
    match item {
        Item::Decl { kind, range, name } => {
            if is_of(class, *kind) {
                let range = indices(*range);
                add_first(names, found, name, Declared { kind: *kind, range })
            } else {
                Ok(())
            }
        }
        Item::Assign { .. } => Ok(()),
        Item::Gate { .. } => Ok(()),
        Item::Instance { .. } => Ok(()),
        Item::Always { .. } => Ok(()),
        Item::Init { .. } => Ok(()),
    }
}

/// Of each name that items declare the first declaration of the class.
pub fn first_declarations(alloc: Global, class: Class, items: &[Item]) -> Result<Firsts, Memory>
    ensures { IfOk result (λ firsts.
        AreFirsts class (map item_tree items.now) firsts.names firsts.found.items) }
{
    let mut names = NameTable::new(alloc)?;
    let mut found = Vec::new(alloc);
    for item in items {
        add_item(&mut names, &mut found, class, item)?;
    }
    Ok(Firsts { names, found })
}

fn declared_at(found: &[Declared], place: u32) -> Option<Declared>
    ensures { result ≡ slice_get found.now place }
{
    found.get(place as usize).copied()
}

/// The first declaration of a name that is known by its bytes.
pub fn first_declared_text(firsts: &Firsts, text: &[u8]) -> Option<Declared>
    requires same { length firsts.now.names ≡ length firsts.now.found.items }
    ensures { result ≡ beside firsts.now.names firsts.now.found.items text.now }
{
    match firsts.names.find(text) {
        Some(number) => declared_at(&firsts.found, number),
        None => None,
    }
}

/// The first declaration of a name.
pub fn first_declared(firsts: &Firsts, name: &Name) -> Option<Declared>
    requires same { length firsts.now.names ≡ length firsts.now.found.items }
    ensures { result ≡ beside firsts.now.names firsts.now.found.items name.now }
{
    first_declared_text(firsts, name.bytes())
}
