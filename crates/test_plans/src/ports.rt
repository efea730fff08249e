//! Whether two netlists have the same ports.

ghost use Rattle.std.specs.Prelude.{◌≡◌, ◌≢◌, ◌<◌, ℕ, IsTrue, length};
ghost use Rattle.eq_net.specs.Net.{net_at};
ghost use Rattle.eq_net.specs.Whole.{parts_of};
ghost use Rattle.eq_match.specs.Seen.{HaveSamePorts};
ghost use Rattle.test_plans.specs.Ports.{AreFound, IsFound, IsSamePort};

use eq_net::{Dir, Net, NetInfo};

fn is_same_dir(a: Dir, b: Dir) -> bool
    ensures { IsTrue result → b ≡ a }
{
    match (a, b) {
        (Dir::Inner, Dir::Inner) => true,
        (Dir::Input, Dir::Input) => true,
        (Dir::Output, Dir::Output) => true,
        _ => false,
    }
}

fn is_same_name(a: &[u8], b: &[u8]) -> bool
    ensures { IsTrue result → b.now ≡ a.now }
{
    b == a
}

fn is_same_port(n: &NetInfo, m: &NetInfo) -> bool
    ensures { IsTrue result → IsSamePort n.now m.now }
{
    is_same_name(n.name.bytes(), m.name.bytes())
        && is_same_dir(n.dir, m.dir)
        && n.width() == m.width()
}

fn is_inner(dir: Dir) -> bool
    ensures { IsTrue result → dir ≡ Dir.Inner }
{
    match dir {
        Dir::Inner => true,
        Dir::Input => false,
        Dir::Output => false,
    }
}

fn is_found(n: &NetInfo, others: &[NetInfo]) -> bool
    ensures { IsTrue result → IsFound others.now n.now }
{
    if is_inner(n.dir) {
        return true;
    }
    for h in 0..others.len() {
        if is_same_port(n, &others[h]) {
            return true;
        }
    }
    false
}

fn are_found(nets: &[NetInfo], others: &[NetInfo]) -> bool
    ensures { IsTrue result → AreFound others.now nets.now (length nets.now) }
{
    for k in 0..nets.len() {
        if !is_found(&nets[k], others) {
            return false;
        }
    }
    true
}

pub fn have_same_ports(gold: &Net, gate: &Net) -> bool
    ensures { IsTrue result → HaveSamePorts (parts_of gold.now) (parts_of gate.now) }
{
    are_found(gold.nets.as_slice(), gate.nets.as_slice())
        && are_found(gate.nets.as_slice(), gold.nets.as_slice())
}
