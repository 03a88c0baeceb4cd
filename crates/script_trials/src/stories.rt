// Whole scripts, over each kind of post.
use crate::told::{Story, told};
use std::test::*;

const THREE_CABINETS: Story = &[
    ("post\tstraight", ""),
    ("cabinet\t0\t0", ""),
    ("cabinet\t1\t0", ""),
    ("cabinet\t2\t1", ""),
    ("plant", "plant\t3"),
    ("want\t0", "want\t0\tin"),
    ("want\t2", "want\t2\twaits"),
    ("want\t2", "no\t16"),
    ("sweep\t2", "sweep\t2\t-"),
    ("leave\t0", "leave\t0\tdone"),
    ("sweep\t2", "sweep\t2\t2\t3"),
    ("leave\t2", "leave\t2\tdone"),
    ("leave\t2", "no\t17"),
    ("bound\t4", "bound\t4\t14"),
];

// Over good wires every message takes one pull, as over the straight post.
const GOOD_WIRES: Story = &[
    ("post\tclean", ""),
    ("cabinet\t0\t0", ""),
    ("cabinet\t1\t0", ""),
    ("cabinet\t2\t1", ""),
    ("plant", "plant\t3"),
    ("want\t0", "want\t0\tin"),
    ("want\t2", "want\t2\twaits"),
    ("sweep\t2", "sweep\t2\t-"),
    ("leave\t0", "leave\t0\tdone"),
    ("sweep\t2", "sweep\t2\t2\t3"),
    ("bound\t4", "bound\t4\t20"),
];

// The first frame on each wire is lost. The patterns and the misses may come in any order, and the last given counts.
const BAD_WIRES: Story = &[
    ("post\tretry", ""),
    ("pattern\t0\tlk", ""),
    ("cabinet\t0\t0", ""),
    ("pattern\t2\tlk", ""),
    ("pattern\t4\tk", ""),
    ("misses\t9", ""),
    ("cabinet\t1\t0", ""),
    ("misses\t1", ""),
    ("pattern\t4\tlk", ""),
    ("plant", "plant\t2"),
    ("want\t1", "want\t1\twaits"),
    ("sweep\t1", "sweep\t1\t-"),
    ("sweep\t1", "sweep\t1\t-"),
    ("sweep\t1", "sweep\t1\t1\t3"),
    ("leave\t1", "leave\t1\tdone"),
    ("bound\t0", "bound\t0\t18"),
];

// With no misses every l counts as a k.
const NO_MISSES: Story = &[
    ("post\tretry", ""),
    ("pattern\t0\tl", ""),
    ("pattern\t59\tldkl", ""),
    ("cabinet\t0\t0", ""),
    ("cabinet\t1\t0", ""),
    ("plant", "plant\t2"),
    ("want\t1", "want\t1\twaits"),
    ("sweep\t1000", "sweep\t1000\t1\t1"),
    ("leave\t1", "leave\t1\tdone"),
    ("sweep\t1000", "sweep\t1000\t-"),
];

const ALONE: Story = &[
    ("post\tstraight", ""),
    ("cabinet\t0\t0", ""),
    ("plant", "plant\t1"),
    ("sweep\t7", "sweep\t7\t-"),
    ("want\t0", "want\t0\tin"),
    ("sweep\t7", "sweep\t7\t-"),
    ("bound\t65535", "bound\t65535\t0"),
];

#[test]
fn scripts_print_what_they_should(rt: HostRuntime) -> Result<(), Fail> {
    for story in [THREE_CABINETS, GOOD_WIRES, BAD_WIRES, NO_MISSES, ALONE] {
        told(&rt, story)?;
    }
    Ok(())
}
