//! Parts that don't denote a partition, and graphs of a system.
ghost use Rattle.eq_model.specs.Graph.{IsGraphOf};
ghost use Rattle.eq_model.specs.Table.{design, DenotesPartition};
ghost use Rattle.eq_model.specs.Examples.{toggle, complement_toggle, complements};
ghost use Rattle.eq_model.specs.PlanExamples.{input_first};
ghost use Rattle.eq_model.specs.PartExamples.{idle_part, input_without_node, output_twice, no_output, other_input, input_is_output, negation_plan, begun_high, shared_bits, shared_nodes, own_node, nodes_begun_low, nodes_given, nodes_open_high};

/// The parts of the partitions of an inverted pair, with one thing changed: an idle node, an input that no node has, an
/// output listed twice, an output left out, an input whose value isn't its pair's, and another initial value. And where an
/// output negates the design's input, a part whose input is that output.
pub fn parts_that_do_not_denote()
    ensures idle { DenotesPartition toggle complement_toggle complements 0 idle_part → ⊥ }
    ensures nameless { DenotesPartition toggle complement_toggle complements 0 input_without_node →
        ⊥ }
    ensures twice { DenotesPartition toggle complement_toggle complements 0 output_twice → ⊥ }
    ensures left_out { DenotesPartition toggle complement_toggle complements 0 no_output → ⊥ }
    ensures input { DenotesPartition toggle complement_toggle complements 0 other_input → ⊥ }
    ensures own_output { DenotesPartition input_first input_first negation_plan 0 input_is_output →
        ⊥ }
    ensures initial { DenotesPartition toggle complement_toggle complements 1 begun_high → ⊥ }
{}

/// A graph with a node that two bits share, a bit without a driver and a register follows its system. It doesn't where the
/// register begins at another value, where the shared node is given from outside, or where the bit without a driver is 1.
pub fn graph_with_a_shared_node()
    ensures follows { IsGraphOf (design shared_bits).system (design shared_nodes).system own_node }
    ensures initial { IsGraphOf (design shared_bits).system (design nodes_begun_low).system own_node
        → ⊥ }
    ensures given { IsGraphOf (design shared_bits).system (design nodes_given).system own_node → ⊥ }
    ensures high { IsGraphOf (design shared_bits).system (design nodes_open_high).system own_node →
        ⊥ }
{}
