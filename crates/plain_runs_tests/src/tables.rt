//! Tables handed on.

use crate::row::run_as;
use std::test::Fail;

const TABLES: [(&str, &str); 6] = [
    (
        "алг\nнач\nцел таб a[1:2]\na[1] := 1; a[2] := 2\nудвоить(a)\nвывод a[1], a[2]\nкон\nалг удвоить(аргрез цел таб t[1:2])\nнач\nt[1] := t[1] * 2; t[2] := t[2] * 2\nкон",
        "run 1 1\nout 1 2\nout 1 4\nend 1 done\n",
    ),
    (
        "алг\nнач\nцел таб a[1:2]\na[1] := 1\nсменить(a)\nвывод a[1]\nкон\nалг сменить(арг цел таб t[1:2])\nнач\nt[1] := 5\nвывод t[1]\nкон",
        "run 1 1\nout 1 5\nout 1 1\nend 1 done\n",
    ),
    (
        "алг\nнач\nцел таб a[1:2]\na[1] := 1; a[2] := 2\nдать(a)\nвывод a[1]\nвывод a[2]\nкон\nалг дать(рез цел таб t[1:2])\nнач\nt[1] := 5\nкон",
        "run 1 1\nout 1 5\nend 1 fault 7 unset\n",
    ),
    (
        "алг\nнач\nцел таб a[1:2]\na[1] := 1\nдать(a)\nкон\nалг дать(рез цел таб t[1:2])\nнач\nвывод t[1]\nкон",
        "run 1 1\nend 1 fault 9 unset\n",
    ),
    (
        "алг\nнач\nцел таб a[1:2]\nf(2, a)\nf(3, a)\nкон\nалг f(арг цел n, арг цел таб t[1:n])\nнач\nвывод n\nкон",
        "run 1 1\nout 1 2\nend 1 fault 7 bounds\n",
    ),
    (
        "алг\nнач\nцел таб a[1:2, 0:1]\nцел i, j\nнц для i от 1 до 2; нц для j от 0 до 1; a[i, j] := i * 10 + j; кц; кц\nвывод сумма(a)\nкон\nалг цел сумма(арг цел таб t[1:2, 0:1])\nнач\nзнач := t[1, 0] + t[1, 1] + t[2, 0] + t[2, 1]\nкон",
        "run 1 1\nout 1 62\nend 1 done\n",
    ),
];

#[test]
fn tables_are_handed_on(rt: HostRuntime) -> Result<(), Fail> {
    run_as(&rt, rt.alloc(), &TABLES)
}
