//! The instances of a design, a parent before its children, children in the order of the text. The walk is depth first;
//! its stack holds the instances that are still to be come to, the next one last.

ghost use Rattle.std.specs.Prelude.{◌≡◌, ◌++◌, ◌∷◌, ◌-◌, ◌<◌, ℕ, [], List, All, length, map, flat_map, option_map, slice_get, Some, None, IfOk, OnOk, IfSome, IfNone};
ghost use Rattle.eq_names.specs.Name.{IsNameByte};
ghost use Rattle.eq_verilog.specs.Trees.{ModuleTree, module_tree, item_tree};
ghost use Rattle.eq_verilog.specs.Hierarchy.{Path as Place, inner_prefix, module_names, module_named};
ghost use Rattle.eq_verilog.specs.Hierarchy as spec;
ghost use Rattle.eq_flatten.specs.Paths.{path_of, path_at, top_path, item_links, links_from, unfolded, AreWithin, IsPath, IsPlaced, IsEntered, IsWalk, HasPaths};

use eq_base::Memory;
use eq_names::{Name, NameTable};
use eq_verilog::laws::modules_by_number;
use eq_vparse::{Conns, Item, Module};
use std::alloc::Global;

/// A module, and its number among all.
#[derive(Clone, Copy, Drop)]
pub struct Placed<'a> {
    pub place: u32,
    pub module: &'a Module,
}

/// An instance: what stands before the own names of its nets, and its module.
#[derive(Drop)]
pub struct Path<'a> {
    pub prefix: Vec<u8>,
    pub of: Placed<'a>,
}

/// How an instance is written in another: the number of that path, the item's parts, and the instance's module.
#[derive(Clone, Copy, Drop)]
pub struct Link<'a> {
    pub within: usize,
    pub module: &'a Name,
    pub name: &'a Name,
    pub conns: &'a Conns,
    pub of: Placed<'a>,
}

/// An instance that is still to be come to, in which at most so many modules may stand in one another.
#[derive(Clone, Copy, Drop)]
struct Pending<'a> {
    link: Link<'a>,
    left: usize,
}

/// The instances of a design. Path 0 is the top, and the link of path `k + 1` is link `k`.
#[derive(Drop)]
pub struct Paths<'a> {
    pub paths: Vec<Path<'a>>,
    pub links: Vec<Link<'a>>,
}

/// The module at a place.
fn placed_at<'a>(modules: &[&'a Module], place: u32) -> Option<Placed<'a>>
    ensures there { option_map (λ p. module_tree p.module.now) result ≡
        slice_get (map (λ m. module_tree m.now) modules.now) place }
    ensures place { IfSome result (λ p. p.place ≡ place) }
{
    match modules.get(place as usize) {
        Some(module) => Some(Placed { place, module }),
        None => None,
    }
}

/// The module of a name, and its number.
pub fn find_module<'a>(names: &NameTable, modules: &[&'a Module], name: &Name) -> Option<Placed<'a>>
    requires named { names.now ≡ module_names (map (λ m. module_tree m.now) modules.now) }
    ensures there { option_map (λ p. module_tree p.module.now) result ≡
        module_named (map (λ m. module_tree m.now) modules.now) name.now }
    ensures placed { IfSome result (IsPlaced (map (λ m. module_tree m.now) modules.now)) }
{
    modules_by_number();
    match names.find(name.bytes()) {
        Some(place) => placed_at(modules, place),
        None => None,
    }
}

/// What stands before the own names of the nets of an instance in a path.
fn prefix_within(
    alloc: Global,
    paths: &[Path],
    within: usize,
    name: &Name,
) -> Result<Vec<u8>, Memory>
    requires { within < length paths.now }
    ensures prefix { IfOk result (λ prefix. prefix.items ≡
        inner_prefix (path_at (map path_of paths.now) within).prefix name.now) }
    ensures bytes { IfOk result (λ prefix. (all : List ModuleTree) →
        All (IsPath all) paths.now → All IsNameByte prefix.items) }
{
    let mut prefix = Vec::new(alloc);
    prefix.extend_from_slice(paths[within].prefix.as_slice())?;
    prefix.extend_from_slice(name.bytes())?;
    prefix.push(b'.')?;
    Ok(prefix)
}

/// Puts the instance that an item is on the stack, if its module is there.
fn add_item<'a>(
    stack: &mut Vec<Pending<'a>>,
    names: &NameTable,
    modules: &[&'a Module],
    item: &'a Item,
    within: usize,
    left: usize,
) -> Result<(), Memory>
    requires named { names.now ≡ module_names (map (λ m. module_tree m.now) modules.now) }
    ensures unfolded { OnOk result ((ps : List Place) →
        unfolded (map (λ m. module_tree m.now) modules.now) ps stack.new.items ≡
        item_links (map (λ m. module_tree m.now) modules.now) left (path_at ps within)
        (item_tree item.now)
        ++ unfolded (map (λ m. module_tree m.now) modules.now) ps stack.old.items) }
    ensures within { OnOk result ((n : ℕ) → within < n →
        AreWithin (map (λ m. module_tree m.now) modules.now) n stack.old.items →
        AreWithin (map (λ m. module_tree m.now) modules.now) n stack.new.items) }
{
    let Item::Instance {
        module,
        name,
        conns,
    } = item
    else {
        return Ok(());
    };
    let Some(of) = find_module(names, modules, module) else {
        return Ok(());
    };
    let link = Link {
        within,
        module,
        name,
        conns,
        of,
    };
    Ok(stack.push(Pending { link, left })?)
}

/// Puts the instances among items on the stack, the first of them last.
fn add_items<'a>(
    stack: &mut Vec<Pending<'a>>,
    names: &NameTable,
    modules: &[&'a Module],
    items: &'a [Item],
    within: usize,
    left: usize,
) -> Result<(), Memory>
    requires named { names.now ≡ module_names (map (λ m. module_tree m.now) modules.now) }
    ensures unfolded { OnOk result ((ps : List Place) →
        unfolded (map (λ m. module_tree m.now) modules.now) ps stack.new.items ≡
        flat_map (item_links (map (λ m. module_tree m.now) modules.now) left (path_at ps within))
        (map item_tree items.now)
        ++ unfolded (map (λ m. module_tree m.now) modules.now) ps stack.old.items) }
    ensures within { OnOk result ((n : ℕ) → within < n →
        AreWithin (map (λ m. module_tree m.now) modules.now) n stack.old.items →
        AreWithin (map (λ m. module_tree m.now) modules.now) n stack.new.items) }
{
    let mut place = items.len();
    while place > 0 {
        place -= 1;
        add_item(stack, names, modules, &items[place], within, left)?;
    }
    Ok(())
}

/// Puts the instances in a path on the stack, unless no more may stand in it.
fn add_below<'a>(
    stack: &mut Vec<Pending<'a>>,
    names: &NameTable,
    modules: &[&'a Module],
    of: Placed<'a>,
    within: usize,
    left: usize,
) -> Result<(), Memory>
    requires named { names.now ≡ module_names (map (λ m. module_tree m.now) modules.now) }
    ensures unfolded { OnOk result ((ps : List Place) →
        (path_at ps within).of ≡ module_tree of.entry.module.now →
        unfolded (map (λ m. module_tree m.now) modules.now) ps stack.new.items ≡
        links_from (map (λ m. module_tree m.now) modules.now) left (path_at ps within)
        ++ unfolded (map (λ m. module_tree m.now) modules.now) ps stack.old.items) }
    ensures within { OnOk result ((n : ℕ) → within < n →
        AreWithin (map (λ m. module_tree m.now) modules.now) n stack.old.items →
        AreWithin (map (λ m. module_tree m.now) modules.now) n stack.new.items) }
{
    if left == 0 {
        return Ok(());
    }
    let items = of.module.items.as_slice();
    add_items(stack, names, modules, items, within, left - 1)
}

/// Comes to an instance of a link on the stack: its path and its link are found, and those in it are still to be come to.
fn enter<'a>(
    alloc: Global,
    found: &mut Paths<'a>,
    stack: &mut Vec<Pending<'a>>,
    names: &NameTable,
    modules: &[&'a Module],
    next: Pending<'a>,
) -> Result<(), Memory>
    requires named { names.now ≡ module_names (map (λ m. module_tree m.now) modules.now) }
    requires bound { next.link.within < length found.old.paths.items }
    ensures { OnOk result (IsEntered (map (λ m. module_tree m.now) modules.now) next.entry
        found.old found.new stack.old.items stack.new.items) }
{
    let link = next.link;
    let prefix = prefix_within(alloc, found.paths.as_slice(), link.within, link.name)?;
    let within = found.paths.len();
    found.paths.push(Path {
        prefix,
        of: link.of,
    })?;
    found.links.push(link)?;
    add_below(stack, names, modules, link.of, within, next.left)
}

/// The walk before its first step: the top is found, and the instances in it are still to be come to.
fn begin<'a>(
    alloc: Global,
    found: &mut Paths<'a>,
    names: &NameTable,
    modules: &[&'a Module],
    top: Placed<'a>,
) -> Result<Vec<Pending<'a>>, Memory>
    requires named { names.now ≡ module_names (map (λ m. module_tree m.now) modules.now) }
    requires placed { IsPlaced (map (λ m. module_tree m.now) modules.now) top }
    requires paths { found.old.paths.items ≡ [] }
    requires links { found.old.links.items ≡ [] }
    ensures { IfOk result (λ stack. IsWalk (map (λ m. module_tree m.now) modules.now)
        (length modules.now - 1) (top_path (module_tree top.entry.module.now)) found.new stack.items) }
{
    found.paths.push(Path {
        prefix: Vec::new(alloc),
        of: top,
    })?;
    let mut stack = Vec::new(alloc);
    add_below(&mut stack, names, modules, top, 0, modules.len() - 1)?;
    Ok(stack)
}

/// All paths of a design whose top is this module.
fn walk<'a>(
    alloc: Global,
    names: &NameTable,
    modules: &[&'a Module],
    top: Placed<'a>,
) -> Result<Paths<'a>, Memory>
    requires named { names.now ≡ module_names (map (λ m. module_tree m.now) modules.now) }
    requires placed { IsPlaced (map (λ m. module_tree m.now) modules.now) top }
    ensures { IfOk result (HasPaths (map (λ m. module_tree m.now) modules.now)
        (top_path (module_tree top.entry.module.now))) }
{
    let mut found = Paths {
        paths: Vec::new(alloc),
        links: Vec::new(alloc),
    };
    let mut stack = begin(alloc, &mut found, names, modules, top)?;
    while let Some(next) = stack.pop() {
        enter(alloc, &mut found, &mut stack, names, modules, next)?;
    }
    Ok(found)
}

/// The paths of the design with this top, or none where it has no module.
pub fn all_paths<'a>(
    alloc: Global,
    names: &NameTable,
    modules: &[&'a Module],
    top: &Name,
) -> Result<Option<Paths<'a>>, Memory>
    requires named { names.now ≡ module_names (map (λ m. module_tree m.now) modules.now) }
    ensures some { IfOk result (λ found. IfSome found (λ ps. map path_of ps.paths.items ≡
        spec.paths (map (λ m. module_tree m.now) modules.now) top.now)) }
    ensures links { IfOk result (λ found. IfSome found (λ ps. (m : ModuleTree) →
        module_named (map (λ m. module_tree m.now) modules.now) top.now ≡ Some m →
        HasPaths (map (λ m. module_tree m.now) modules.now) (top_path m) ps)) }
    ensures none { IfOk result (λ found. IfNone found
        (module_named (map (λ m. module_tree m.now) modules.now) top.now ≡ None)) }
{
    match find_module(names, modules, top) {
        Some(top) => Ok(Some(walk(alloc, names, modules, top)?)),
        None => Ok(None),
    }
}
