//! For each kind of production texts that are read, and texts that are refused.

/// Whole files, and the token that is refused.
pub const FILES: &[(&str, Option<usize>)] = &[
    (
        "package p; import \"a\"; import (a \"a\"; \"b\"); var x int",
        None,
    ),
    ("p", Some(0)),
    ("package p; var x int; import \"a\"", Some(7)),
];

/// Declarations.
pub const DECLARATIONS: &[(&str, bool)] = &[
    ("const (a = 1; b)", true),
    ("func (t *T,) f(a, b int, c ... string,) (d int) {}", true),
    ("const a int", false),
    ("func f(a int, b)", false),
];

/// Types of a variable.
pub const TYPES: &[(&str, bool)] = &[
    ("map[int]func(a int) chan<- <-chan [1 + n]*p.T", true),
    ("struct { ; a, b int \"t\"; *T; p.T \"t\"; T }", true),
    ("interface { ; f(int) int; T; p.T; g() }", true),
    ("p.q.T", false),
];

/// Values of a variable.
pub const EXPRESSIONS: &[(&str, bool)] = &[
    ("'a' + 1 * -x.y == \"s\" && !b || ^c &^ d << 2 > <-e", true),
    ("f()(1, chan int, func(), <-chan int,)(a ... ,)", true),
    ("T{1, {2}, a: 3, {4}: {5},}.b.(p.T)[1:2:3]", true),
    ("a[1:2:]", false),
    ("(T){}", false),
];

/// Statements of a function.
pub const STATEMENTS: &[(&str, bool)] = &[
    ("L: M: f(); a, b = 1, 2; a &^= 2; c <- <-d; *p--", true),
    ("go f(); defer func() {}(); return 1, 2", true),
    ("if a := b; a {} else if x == (T{}) {} else {}", true),
    ("switch x := a.(type) { case int, *T: f(); default: }", true),
    ("select { case a, b := <-c: case c <- 1: default: }", true),
    ("for a := 0; a < 1; a++ {}; for a, b[0] = range c {}", true),
    ("if x == T{} {}", false),
    ("switch a { case 1: f() case 2: }", false),
    ("for ;; a := 1 {}", false),
];
