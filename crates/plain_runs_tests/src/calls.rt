//! Calls, assertions and values.

use crate::row::run_as;
use std::test::Fail;

const CALLS: [(&str, &str); 7] = [
    (
        "алг\nнач\nцел таб a[1:2]\nцел i\ni := 1; a[1] := 7; a[2] := 9\nсмена(i, a[i], a[i])\nвывод a[1], \",\", a[2], \",\", i\nкон\nалг смена(аргрез цел k, x, y)\nнач\nk := 2; x := 5; y := 6\nкон",
        "run 1 1\nout 1 6\nout 1 ,\nout 1 9\nout 1 ,\nout 1 2\nend 1 done\n",
    ),
    (
        "алг\nнач\nвывод ф(12), нс, ф(13)\nкон\nалг цел ф(арг цел n)\nнач\nесли n = 0 то знач := 1 иначе знач := n * ф(n - 1) все\nкон",
        "run 1 1\nout 1 479001600\nout 1 \\n\nend 1 fault 7 range\n",
    ),
    (
        "алг\nнач\nцел x\nx := 3\nвывод x + g(x)\nвывод x\nкон\nалг цел g(аргрез цел y)\nнач\ny := 10\nзнач := 100\nкон",
        "run 1 1\nout 1 103\nout 1 10\nend 1 done\n",
    ),
    (
        "алг\nнач\nцел x\nx := 3\nполучить(x)\nвывод x\nкон\nалг получить(рез цел y)\nнач\nкон",
        "run 1 1\nend 1 fault 6 unset\n",
    ),
    (
        "алг\nнач\nцел x\nx := 3\nсменить(x)\nвывод x\nкон\nалг сменить(арг цел y)\nнач\ny := 4\nвывод y\nкон",
        "run 1 1\nout 1 4\nout 1 3\nend 1 done\n",
    ),
    (
        "алг\nнач\nвывод f(2, f(1, 1))\nкон\nалг цел f(арг цел a, b)\nнач\nвывод a, b\nзнач := a * 10 + b\nкон",
        "run 1 1\nout 1 1\nout 1 1\nout 1 2\nout 1 11\nout 1 31\nend 1 done\n",
    ),
    (
        "алг цел главная\nнач\nзнач := 1\nкон",
        "run 1 1\nend 1 done\n",
    ),
];

#[test]
fn calls_give_and_take(rt: HostRuntime) -> Result<(), Fail> {
    run_as(&rt, rt.alloc(), &CALLS)
}

const CLAIMS: [(&str, &str); 7] = [
    (
        "алг\nнадо 1 = 2\nнач\nвывод \"а\"\nвыход\nвывод \"б\"\nкон",
        "run 1 1\nout 1 а\nend 1 assert 2\n",
    ),
    (
        "алг\nдано 1 = 1\nнадо 2 = 2\nнач\nутв да\nвывод \"а\"\nкон",
        "run 1 1\nout 1 а\nend 1 done\n",
    ),
    (
        "алг\nнач\nвывод \"а\"\nутв 1 > 2\nвывод \"б\"\nкон",
        "run 1 1\nout 1 а\nend 1 assert 4\n",
    ),
    (
        "алг\nдано нет\nнач\nвывод \"а\"\nкон",
        "run 1 1\nend 1 assert 2\n",
    ),
    (
        "алг\nнач\nвывод f(0)\nкон\nалг цел f(арг цел x)\nдано x > 0\nнач\nзнач := x\nкон",
        "run 1 1\nend 1 assert 6\n",
    ),
    (
        "алг\nнач\nвывод f\nкон\nалг цел f\nнадо знач = 2\nнач\nзнач := 1\nкон",
        "run 1 1\nend 1 assert 6\n",
    ),
    (
        "алг\nнач\nвывод f\nкон\nалг цел f\nнадо нет\nнач\nкон",
        "run 1 1\nend 1 assert 6\n",
    ),
];

#[test]
fn claims_end_a_run_on_their_line(rt: HostRuntime) -> Result<(), Fail> {
    run_as(&rt, rt.alloc(), &CLAIMS)
}
