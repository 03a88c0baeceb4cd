// Every refusal that a script can meet, in the order in which the grounds are checked, with what stands before and after.
use crate::told::{Story, told};
use std::test::*;

// 6, before the post is named, and once it is.
const OUT_OF_PLACE: Story = &[
    ("misses\t1", "no\t6"),
    ("pattern\t0\tk", "no\t6"),
    ("cabinet\t0\t0", "no\t6"),
    ("plant", "no\t6"),
    ("want\t0", "no\t6"),
    ("leave\t0", "no\t6"),
    ("sweep\t0", "no\t6"),
    ("bound\t99999", "no\t6"),
    ("post\tclean", ""),
    ("post\tclean", "no\t6"),
    ("misses\t16", "no\t6"),
    ("pattern\t60\tk", "no\t6"),
    ("cabinet\t0\t0", ""),
    ("plant", "plant\t1"),
    ("post\tretry", "no\t6"),
    ("misses\t0", "no\t6"),
    ("pattern\t0\tk", "no\t6"),
    ("cabinet\t1\t0", "no\t6"),
    ("want\t0", "want\t0\tin"),
];

// 7 and 8, and 10 behind them.
const OUT_OF_RANGE: Story = &[
    ("post\tretry", ""),
    ("misses\t16", "no\t7"),
    ("misses\t99999", "no\t7"),
    ("misses\t15", ""),
    ("pattern\t60\tk", "no\t8"),
    ("pattern\t99999\tk", "no\t8"),
    ("pattern\t59\tk", ""),
    ("sweep\t0", "no\t7"),
    ("sweep\t1001", "no\t7"),
    ("sweep\t1000", "no\t10"),
    ("bound\t65536", "no\t7"),
    ("bound\t65535", "no\t10"),
    ("want\t99999", "no\t10"),
    ("leave\t0", "no\t10"),
    ("cabinet\t0\t0", ""),
    ("cabinet\t1\t0", ""),
    ("plant", "plant\t2"),
    ("sweep\t0", "no\t7"),
    ("sweep\t1001", "no\t7"),
    ("bound\t65536", "no\t7"),
    ("bound\t65535", "bound\t65535\t66351"),
];

// 12 and 13 of cabinet lines, and 12 of a plant with no cabinets.
const NO_TREE: Story = &[
    ("post\tstraight", ""),
    ("plant", "no\t12"),
    ("cabinet\t16\t0", "no\t12"),
    ("cabinet\t99999\t0", "no\t12"),
    ("cabinet\t0\t1", "no\t13"),
    ("cabinet\t1\t0", "no\t13"),
    ("plant", "no\t12"),
    ("cabinet\t0\t0", ""),
    ("cabinet\t0\t0", "no\t13"),
    ("cabinet\t2\t1", "no\t13"),
    ("cabinet\t1\t1", "no\t13"),
    ("cabinet\t1\t2", "no\t13"),
    ("cabinet\t1\t0", ""),
    ("cabinet\t2\t2", "no\t13"),
    ("cabinet\t2\t1", ""),
    ("plant", "plant\t3"),
    ("plant", "no\t11"),
    ("want\t1", "want\t1\twaits"),
    ("plant", "no\t11"),
    ("sweep\t1", "sweep\t1\t1\t1"),
];

// Sixteen cabinets, and none after them.
const SIXTEEN: Story = &[
    ("post\tclean", ""),
    ("cabinet\t0\t0", ""),
    ("cabinet\t1\t0", ""),
    ("cabinet\t2\t1", ""),
    ("cabinet\t3\t2", ""),
    ("cabinet\t4\t3", ""),
    ("cabinet\t5\t4", ""),
    ("cabinet\t6\t5", ""),
    ("cabinet\t7\t6", ""),
    ("cabinet\t8\t7", ""),
    ("cabinet\t9\t8", ""),
    ("cabinet\t10\t9", ""),
    ("cabinet\t11\t10", ""),
    ("cabinet\t12\t11", ""),
    ("cabinet\t13\t12", ""),
    ("cabinet\t14\t13", ""),
    ("cabinet\t15\t14", ""),
    ("cabinet\t16\t15", "no\t12"),
    ("cabinet\t15\t14", "no\t13"),
    ("plant", "plant\t16"),
    ("want\t15", "want\t15\twaits"),
    ("want\t16", "no\t15"),
    ("sweep\t1000", "sweep\t1000\t15\t15"),
    ("bound\t65535", "bound\t65535\t983115"),
];

// 15, 16 and 17.
const AT_A_CABINET: Story = &[
    ("post\tstraight", ""),
    ("cabinet\t0\t0", ""),
    ("cabinet\t1\t0", ""),
    ("plant", "plant\t2"),
    ("want\t2", "no\t15"),
    ("want\t16", "no\t15"),
    ("leave\t2", "no\t15"),
    ("leave\t99999", "no\t15"),
    ("leave\t0", "no\t17"),
    ("want\t0", "want\t0\tin"),
    ("want\t0", "no\t16"),
    ("want\t1", "want\t1\twaits"),
    ("want\t1", "no\t16"),
    ("leave\t1", "no\t17"),
    ("sweep\t3", "sweep\t3\t-"),
    ("leave\t0", "leave\t0\tdone"),
    ("leave\t0", "no\t17"),
    ("sweep\t3", "sweep\t3\t1\t4"),
    ("want\t1", "no\t16"),
    ("leave\t1", "leave\t1\tdone"),
];

#[test]
fn lines_are_refused(rt: HostRuntime) -> Result<(), Fail> {
    for story in [OUT_OF_PLACE, OUT_OF_RANGE, NO_TREE, SIXTEEN, AT_A_CABINET] {
        told(&rt, story)?;
    }
    Ok(())
}
