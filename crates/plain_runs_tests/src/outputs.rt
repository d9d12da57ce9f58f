//! Outputs as they are printed.

use crate::row::run_as;
use std::test::Fail;

const OUTPUTS: [(&str, &str); 2] = [
    (
        "алг\nнач\nвывод \"\\\", \"\\n\", нс, \"\", \" а  б \", \"\\\\\"\nкон",
        "run 1 1\nout 1 \\\\\nout 1 \\\\n\nout 1 \\n\nout 1 \nout 1  а  б \nout 1 \\\\\\\\\nend 1 done\n",
    ),
    (
        "алг\nнач\nвывод 0, -0, 2147483647, -2147483647 - 1, да, 1 = 2\nвывод нс, нс\nкон",
        "run 1 1\nout 1 0\nout 1 0\nout 1 2147483647\nout 1 -2147483648\nout 1 да\nout 1 нет\nout 1 \\n\nout 1 \\n\nend 1 done\n",
    ),
];

#[test]
fn outputs_are_printed(rt: HostRuntime) -> Result<(), Fail> {
    run_as(&rt, rt.alloc(), &OUTPUTS)
}
