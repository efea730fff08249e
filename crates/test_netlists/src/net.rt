//! Netlists: which names tools make, and that netlists cross threads.

use eq_net::{Net, NetInfo, State, Stepped, Word, is_automatic};

#[test]
fn knows_the_names_that_tools_make(rt: HostRuntime) {
    let names: [(&[u8], bool); 10] = [
        (b"_0_", true),
        (b"_00_", true),
        (b"_123_", true),
        (b"_9_", true),
        (b"__", false),
        (b"_1", false),
        (b"1_", false),
        (b"_a_", false),
        (b"_1_2_", false),
        (b"", false),
    ];
    for (name, automatic) in names {
        assert_eq!(rt; is_automatic(name), automatic, "{name:?}");
    }
}

fn crosses<T: Send + Sync>(_value: &T) {}

/// A netlist and all that it holds may move between threads and be shared by them.
fn all_cross(net: &Net, info: &NetInfo, word: &Word, state: &State, stepped: &Stepped) {
    crosses(net);
    crosses(info);
    crosses(word);
    crosses(state);
    crosses(stepped);
}
