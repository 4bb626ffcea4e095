//! Programs that break one rule each, with what is on standard error, and programs beside them that break none.

/// For each rule programs that break it, and the line that names it.
pub const BROKEN: &[(&str, &str)] = &[
    (
        "package main\n\nvar a int\n\nvar a string\n\nfunc main() {}\n",
        "x.go:5:5: redeclared in this block (N1)\n",
    ),
    (
        "package main\n\nfunc f(a int, a string) {}\n\nfunc main() {}\n",
        "x.go:3:15: redeclared in this block (N1)\n",
    ),
    (
        "package main\n\nfunc main() {\n\tx := 1\n\tvar x int\n\t_ = x\n}\n",
        "x.go:5:6: redeclared in this block (N1)\n",
    ),
    (
        "package main\n\nvar a = b\n\nfunc main() {}\n",
        "x.go:3:9: undefined (N2)\n",
    ),
    (
        "package main\n\nimport \"errors\"\n\nvar a = errors.new\n\nfunc main() {}\n",
        "x.go:5:16: undefined (N2)\n",
    ),
    (
        "package main\n\nvar a = int\n\nfunc main() {}\n",
        "x.go:3:9: wrong kind of name (N3)\n",
    ),
    (
        "package main\n\nvar a int\n\nvar b a\n\nfunc main() {}\n",
        "x.go:5:7: wrong kind of name (N3)\n",
    ),
    (
        "package main\n\nfunc f() int { return _ }\n\nfunc main() {}\n",
        "x.go:3:23: wrong kind of name (N3)\n",
    ),
    (
        "package main\n\nvar init = 1\n\nfunc main() {}\n",
        "x.go:3:5: bad init or main (N4)\n",
    ),
    (
        "package main\n\nfunc main(a int) {}\n",
        "x.go:3:6: bad init or main (N4)\n",
    ),
    (
        "package main\n\nfunc (int) m() {}\n\nfunc main() {}\n",
        "x.go:3:7: bad receiver (N5)\n",
    ),
    (
        "package main\n\ntype t *int\n\nfunc (t) m() {}\n\nfunc main() {}\n",
        "x.go:5:7: bad receiver (N5)\n",
    ),
    (
        "package main\n\ntype t struct {\n\ta int\n\ta string\n}\n\nfunc main() {}\n",
        "x.go:5:2: duplicate field or method (N6)\n",
    ),
    (
        "package main\n\ntype t struct{ a int }\n\nfunc (t) a() {}\n\nfunc main() {}\n",
        "x.go:5:10: duplicate field or method (N6)\n",
    ),
    (
        "package main\n\ntype t struct{ a t }\n\nfunc main() {}\n",
        "x.go:3:6: invalid recursive type (N7)\n",
    ),
    (
        "package main\n\ntype a = b\n\ntype b = a\n\nfunc main() {}\n",
        "x.go:3:6: invalid recursive type (N7)\n",
    ),
    (
        "package main\n\ntype p *int\n\ntype t struct{ p }\n\nfunc main() {}\n",
        "x.go:5:16: bad embedded type (N8)\n",
    ),
    (
        "package main\n\ntype t interface{ int }\n\nfunc main() {}\n",
        "x.go:3:19: bad embedded type (N8)\n",
    ),
    (
        "package main\n\nvar a map[[]int]int\n\nfunc main() {}\n",
        "x.go:3:11: map key not comparable (N9)\n",
    ),
    (
        "package main\n\nvar a [-1]int\n\nfunc main() {}\n",
        "x.go:3:8: bad array length (N10)\n",
    ),
    (
        "package main\n\nvar a [\"b\"]int\n\nfunc main() {}\n",
        "x.go:3:8: bad array length (N10)\n",
    ),
    (
        "package main\n\nvar a [1048577]int\n\nfunc main() {}\n",
        "x.go:3:7: type too large (N11)\n",
    ),
    (
        "package main\n\nconst a = b\n\nconst b = a\n\nfunc main() {}\n",
        "x.go:3:7: declaration refers to itself (N12)\n",
    ),
    (
        "package main\n\nvar a = b\n\nvar b = a\n\nfunc main() {}\n",
        "x.go:3:5: declaration refers to itself (N12)\n",
    ),
    (
        "package main\n\nvar a = 1\n\nconst b = a\n\nfunc main() {}\n",
        "x.go:5:11: not a constant (N13)\n",
    ),
    (
        "package main\n\nvar a [f()]int\n\nfunc f() int { return 1 }\n\nfunc main() {}\n",
        "x.go:3:8: not a constant (N13)\n",
    ),
    (
        "package main\n\nfunc f()\n\nfunc main() {}\n",
        "x.go:3:1: function without a body (N14)\n",
    ),
    (
        "package main\n\nvar a int8 = 128\n\nfunc main() {}\n",
        "x.go:3:14: constant out of range (K1)\n",
    ),
    (
        "package main\n\nconst a = 1 << 127\n\nfunc main() {}\n",
        "x.go:3:11: constant out of range (K1)\n",
    ),
    (
        "package main\n\nconst a = 1 / 0\n\nfunc main() {}\n",
        "x.go:3:15: division by zero (K2)\n",
    ),
    (
        "package main\n\nfunc f(a int) int { return a % 0 }\n\nfunc main() {}\n",
        "x.go:3:32: division by zero (K2)\n",
    ),
    (
        "package main\n\nconst a = 1 << -1\n\nfunc main() {}\n",
        "x.go:3:16: bad shift (K3)\n",
    ),
    (
        "package main\n\nfunc f(a string) string { return a << 1 }\n\nfunc main() {}\n",
        "x.go:3:34: bad shift (K3)\n",
    ),
    (
        "package main\n\nvar a string = 1\n\nfunc main() {}\n",
        "x.go:3:16: not assignable (E1)\n",
    ),
    (
        "package main\n\ntype t struct{}\n\nvar a error = t{}\n\nfunc main() {}\n",
        "x.go:5:15: not assignable (E1)\n",
    ),
    (
        "package main\n\nfunc f(a int, b string) { _ = a + b }\n\nfunc main() {}\n",
        "x.go:3:31: bad operand (E2)\n",
    ),
    (
        "package main\n\nvar a = !1\n\nfunc main() {}\n",
        "x.go:3:10: bad operand (E2)\n",
    ),
    (
        "package main\n\nfunc f(a, b []int) bool { return a == b }\n\nfunc main() {}\n",
        "x.go:3:34: not comparable (E3)\n",
    ),
    (
        "package main\n\nfunc f(a, b bool) bool { return a < b }\n\nfunc main() {}\n",
        "x.go:3:33: not comparable (E3)\n",
    ),
    (
        "package main\n\nfunc f() int {\n\tf() = 1\n\treturn 1\n}\n\nfunc main() {}\n",
        "x.go:4:2: cannot assign (E4)\n",
    ),
    (
        "package main\n\nconst a = 1\n\nfunc f() { a++ }\n\nfunc main() {}\n",
        "x.go:5:12: cannot assign (E4)\n",
    ),
    (
        "package main\n\nfunc f() *int { return &g() }\n\nfunc g() int { return 1 }\n\nfunc main() {}\n",
        "x.go:3:25: cannot take address (E5)\n",
    ),
    (
        "package main\n\nvar a = 1\n\nfunc f() { a() }\n\nfunc main() {}\n",
        "x.go:5:12: not a function (E6)\n",
    ),
    (
        "package main\n\nfunc f(a int) {}\n\nfunc main() { f(1, 2) }\n",
        "x.go:5:17: wrong number of values (E7)\n",
    ),
    (
        "package main\n\nfunc f() (int, int) { return 1 }\n\nfunc main() {}\n",
        "x.go:3:30: wrong number of values (E7)\n",
    ),
    (
        "package main\n\nfunc f() {}\n\nvar a = f()\n\nfunc main() {}\n",
        "x.go:5:9: wrong number of values (E7)\n",
    ),
    (
        "package main\n\ntype t struct{ a int }\n\nvar b = t{}.c\n\nfunc main() {}\n",
        "x.go:5:13: no such field or method (E8)\n",
    ),
    (
        "package main\n\ntype a struct{ x int }\n\ntype b struct{ x int }\n\nvar c struct {\n\ta\n\tb\n}\n\nvar d = c.x\n\nfunc main() {}\n",
        "x.go:12:11: ambiguous selector (E9)\n",
    ),
    (
        "package main\n\ntype t int\n\nfunc (*t) m() {}\n\nfunc f() { t(1).m() }\n\nfunc main() {}\n",
        "x.go:7:17: receiver not addressable (E10)\n",
    ),
    (
        "package main\n\nvar a = [2]int{}\n\nvar b = a[2]\n\nfunc main() {}\n",
        "x.go:5:11: bad index (E11)\n",
    ),
    (
        "package main\n\nvar a = 1\n\nvar b = a[0]\n\nfunc main() {}\n",
        "x.go:5:9: bad index (E11)\n",
    ),
    (
        "package main\n\nvar a = \"abc\"[2:1]\n\nfunc main() {}\n",
        "x.go:3:17: bad slice (E12)\n",
    ),
    (
        "package main\n\nvar a = 1[:]\n\nfunc main() {}\n",
        "x.go:3:9: bad slice (E12)\n",
    ),
    (
        "package main\n\nvar a = \"abc\"[0:1:\"x\"]\n\nfunc main() {}\n",
        "x.go:3:9: bad slice (E12)\n",
    ),
    (
        "package main\n\nvar a = 1\n\nvar b = a.(int)\n\nfunc main() {}\n",
        "x.go:5:9: bad type assertion (E13)\n",
    ),
    (
        "package main\n\nvar a error\n\nvar b = a.(int)\n\nfunc main() {}\n",
        "x.go:5:12: bad type assertion (E13)\n",
    ),
    (
        "package main\n\nvar a = bool(1)\n\nfunc main() {}\n",
        "x.go:3:9: bad conversion (E14)\n",
    ),
    (
        "package main\n\nvar a = int{1}\n\nfunc main() {}\n",
        "x.go:3:9: bad composite literal (E15)\n",
    ),
    (
        "package main\n\nvar a = struct{ x, y int }{1}\n\nfunc main() {}\n",
        "x.go:3:28: bad composite literal (E15)\n",
    ),
    (
        "package main\n\nvar a = map[int]int{1}\n\nfunc main() {}\n",
        "x.go:3:21: bad composite literal (E15)\n",
    ),
    (
        "package main\n\nvar a = nil\n\nfunc main() {}\n",
        "x.go:3:9: use of untyped nil (E16)\n",
    ),
    (
        "package main\n\nvar a = len(1)\n\nfunc main() {}\n",
        "x.go:3:13: bad built-in call (E17)\n",
    ),
    (
        "package main\n\nvar a = len\n\nfunc main() {}\n",
        "x.go:3:9: bad built-in call (E17)\n",
    ),
    (
        "package main\n\nfunc f() { 1 + 2 }\n\nfunc main() {}\n",
        "x.go:3:12: result not used (E18)\n",
    ),
    (
        "package main\n\nfunc f(a []int) { append(a, 1) }\n\nfunc main() {}\n",
        "x.go:3:19: result not used (E18)\n",
    ),
    (
        "package main\n\nfunc f(a int) { a := 1 }\n\nfunc main() {}\n",
        "x.go:3:17: no new variable (E19)\n",
    ),
    (
        "package main\n\nfunc f() (a int) {\n\t{\n\t\ta := 1\n\t\t_ = a\n\t\treturn\n\t}\n}\n\nfunc main() {}\n",
        "x.go:7:3: result hidden at return (E20)\n",
    ),
    (
        "package main\n\nfunc f(a int) {\n\tfor range a {\n\t}\n}\n\nfunc main() {}\n",
        "x.go:4:12: bad range (E21)\n",
    ),
    (
        "package main\n\nfunc f(a chan int) {\n\tfor b, c := range a {\n\t\t_, _ = b, c\n\t}\n}\n\nfunc main() {}\n",
        "x.go:4:6: bad range (E21)\n",
    ),
    (
        "package main\n\nfunc f(a int) {\n\tswitch a {\n\tcase 1, 1:\n\t}\n}\n\nfunc main() {}\n",
        "x.go:5:10: bad case (E22)\n",
    ),
    (
        "package main\n\nfunc f() {\n\tswitch {\n\tdefault:\n\tdefault:\n\t}\n}\n\nfunc main() {}\n",
        "x.go:6:2: bad case (E22)\n",
    ),
    (
        "package main\n\nfunc f(a <-chan int) { a <- 1 }\n\nfunc main() {}\n",
        "x.go:3:24: bad channel operation (E23)\n",
    ),
    (
        "package main\n\nfunc f(a int) {\n\tselect {\n\tcase a:\n\t}\n}\n\nfunc main() {}\n",
        "x.go:5:7: bad channel operation (E23)\n",
    ),
    (
        "package main\n\nfunc f() { defer append([]int{}, 1) }\n\nfunc main() {}\n",
        "x.go:3:18: bad go or defer (E24)\n",
    ),
    (
        "package main\n\nfunc f() { go (f()) }\n\nfunc main() {}\n",
        "x.go:3:15: bad go or defer (E24)\n",
    ),
    (
        "package main\n\nfunc f(a int) {\n\tif a {\n\t}\n}\n\nfunc main() {}\n",
        "x.go:4:5: condition not boolean (E25)\n",
    ),
    (
        "package main\n\nfunc f(a []int) { g(a...) }\n\nfunc g(a []int) {}\n\nfunc main() {}\n",
        "x.go:3:22: bad use of ... (E26)\n",
    ),
    (
        "package main\n\nfunc f() {\na:\n\tfor {\n\t}\n}\n\nfunc main() {}\n",
        "x.go:4:1: label not used (B1)\n",
    ),
    (
        "package main\n\nfunc f() {\n\tfor {\n\t\tbreak a\n\t}\n}\n\nfunc main() {}\n",
        "x.go:5:9: bad label (B2)\n",
    ),
    (
        "package main\n\nfunc f() int {\n\tfor {\n\t\tbreak\n\t}\n}\n\nfunc main() {}\n",
        "x.go:7:1: missing return (B3)\n",
    ),
    (
        "package main\n\nfunc f() {\n\ta := 1\n}\n\nfunc main() {}\n",
        "x.go:4:2: variable declared and not used (B4)\n",
    ),
    (
        "package main\n\nimport \"errors\"\n\nvar a = 1\n\nfunc main() {}\n",
        "x.go:3:8: import not used (B5)\n",
    ),
    (
        "package main\n\nfunc f() { break }\n\nfunc main() {}\n",
        "x.go:3:12: break or continue misplaced (B6)\n",
    ),
    (
        "package main\n\nfunc f() {\n\tswitch {\n\tdefault:\n\t\tcontinue\n\t}\n}\n\nfunc main() {}\n",
        "x.go:6:3: break or continue misplaced (B6)\n",
    ),
    (
        "package main\n\nvar a = f()\n\nfunc f() int { return a }\n\nfunc main() {}\n",
        "x.go:3:5: initialisation cycle (O1)\n",
    ),
    ("package main\n", "x.go:1:9: no main function (O2)\n"),
];

/// Programs that break several rules, and the line of the first.
pub const FIRST: &[(&str, &str)] = &[
    (
        "package main\n\nfunc main() { x := 1 }\n\nvar m map[[]int]int\n",
        "x.go:5:11: map key not comparable (N9)\n",
    ),
    (
        "package main\n\nfunc main() { x := 1 }\n\nfunc g() int { return \"a\" }\n",
        "x.go:5:23: not assignable (E1)\n",
    ),
    (
        "package main\n\nvar a string = b\n\nvar b = 1 + c\n\nfunc main() {}\n",
        "x.go:5:13: undefined (N2)\n",
    ),
    (
        "package main\n\nconst c = T\n\ntype T [c]int\n\nfunc main() {}\n",
        "x.go:3:7: declaration refers to itself (N12)\n",
    ),
    (
        "package main\n\nvar x int = x\n",
        "x.go:1:9: no main function (O2)\n",
    ),
    (
        "package main\n\nimport \"os\"\n\nvar x int = x\n\nfunc main() {\nL:\n\tfor {\n\t}\n}\n",
        "x.go:3:8: import not used (B5)\n",
    ),
    (
        "package main\n\ntype T struct {\n\ta map[[]int]int\n\tb U\n}\n\nfunc main() {}\n",
        "x.go:4:8: map key not comparable (N9)\n",
    ),
];

/// Programs that break no rule.
pub const KEPT: &[&str] = &[
    "package main\n\nvar a int\n\nvar b string\n\nfunc main() {}\n",
    "package main\n\nfunc f(a int, b string) {}\n\nfunc main() {}\n",
    "package main\n\nfunc main() {\n\tx := 1\n\t{\n\t\tvar x int\n\t\t_ = x\n\t}\n\t_ = x\n}\n",
    "package main\n\nvar a = b\n\nvar b = 1\n\nfunc main() {}\n",
    "package main\n\nimport \"errors\"\n\nvar a = errors.New\n\nfunc main() {}\n",
    "package main\n\nvar a = int(1)\n\nfunc main() {}\n",
    "package main\n\ntype a int\n\nvar b a\n\nfunc main() {}\n",
    "package main\n\nfunc f() (_ int) { return }\n\nfunc main() {}\n",
    "package main\n\nvar inits = 1\n\nfunc main() {}\n",
    "package main\n\nfunc f(a int) {}\n\nfunc main() {}\n",
    "package main\n\ntype t int\n\nfunc (t) m() {}\n\nfunc main() {}\n",
    "package main\n\ntype t int\n\nfunc (*t) m() {}\n\nfunc main() {}\n",
    "package main\n\ntype t struct {\n\ta int\n\tb string\n}\n\nfunc main() {}\n",
    "package main\n\ntype t struct{ a int }\n\nfunc (t) b() {}\n\nfunc main() {}\n",
    "package main\n\ntype t struct{ a *t }\n\nfunc main() {}\n",
    "package main\n\ntype a = b\n\ntype b = int\n\nfunc main() {}\n",
    "package main\n\ntype p int\n\ntype t struct{ *p }\n\nfunc main() {}\n",
    "package main\n\ntype t interface{ error }\n\nfunc main() {}\n",
    "package main\n\nvar a map[[2]int]int\n\nfunc main() {}\n",
    "package main\n\nvar a [0]int\n\nfunc main() {}\n",
    "package main\n\nvar a [len(\"b\")]int\n\nfunc main() {}\n",
    "package main\n\nvar a [1048576]int\n\nfunc main() {}\n",
    "package main\n\ntype t struct {\n\tp *[1]t\n\tq [][2]t\n}\n\nvar a t\n\nfunc main() { a.q = [][2]t{} }\n",
    "package main\n\ntype t *[3]t\n\nfunc main() {\n\tvar a [3]t\n\ta[0] = &a\n}\n",
    "package main\n\nconst a = b\n\nconst b = 1\n\nfunc main() {}\n",
    "package main\n\nvar a int = f()\n\nfunc f() int { return 1 }\n\nfunc main() {}\n",
    "package main\n\nconst a = 1\n\nconst b = a\n\nfunc main() {}\n",
    "package main\n\nvar a [len(\"ab\")]int\n\nfunc main() {}\n",
    "package main\n\nfunc f() {}\n\nfunc main() {}\n",
    "package main\n\nvar a int8 = 127\n\nfunc main() {}\n",
    "package main\n\nconst a = 1 << 126\n\nfunc main() {}\n",
    "package main\n\nconst a = 0 / 1\n\nfunc main() {}\n",
    "package main\n\nfunc f(a int) int { return a % 1 }\n\nfunc main() {}\n",
    "package main\n\nconst a = 1 << 1\n\nfunc main() {}\n",
    "package main\n\nfunc f(a uint8) uint8 { return a << 1 }\n\nfunc main() {}\n",
    "package main\n\nvar a string = \"1\"\n\nfunc main() {}\n",
    "package main\n\ntype t struct{}\n\nfunc (t) Error() string { return \"\" }\n\nvar a error = t{}\n\nfunc main() {}\n",
    "package main\n\nfunc f(a int, b string) { _ = string(rune(a)) + b }\n\nfunc main() {}\n",
    "package main\n\nvar a = !true\n\nfunc main() {}\n",
    "package main\n\nfunc f(a []int) bool { return a == nil }\n\nfunc main() {}\n",
    "package main\n\nfunc f(a, b string) bool { return a < b }\n\nfunc main() {}\n",
    "package main\n\nfunc f(a map[int]int) { a[0] = 1 }\n\nfunc main() {}\n",
    "package main\n\nvar a = 1\n\nfunc f() { a++ }\n\nfunc main() {}\n",
    "package main\n\nfunc f() *[]int { return &[]int{1} }\n\nfunc main() {}\n",
    "package main\n\nvar a = func() {}\n\nfunc f() { a() }\n\nfunc main() {}\n",
    "package main\n\nfunc f(a, b int) {}\n\nfunc main() { f(1, 2) }\n",
    "package main\n\nfunc f() (int, int) { return 1, 2 }\n\nfunc main() {}\n",
    "package main\n\nfunc f() int { return 1 }\n\nvar a = f()\n\nfunc main() {}\n",
    "package main\n\ntype t struct{ a int }\n\nvar b = t{}.a\n\nfunc main() {}\n",
    "package main\n\ntype a struct{ x int }\n\ntype b struct{ y int }\n\nvar c struct {\n\ta\n\tb\n}\n\nvar d = c.x\n\nfunc main() {}\n",
    "package main\n\ntype t int\n\nfunc (*t) m() {}\n\nfunc f(a t) { a.m() }\n\nfunc main() {}\n",
    "package main\n\nvar a = [2]int{}\n\nvar b = a[1]\n\nfunc main() {}\n",
    "package main\n\nvar a = \"1\"\n\nvar b = a[0]\n\nfunc main() {}\n",
    "package main\n\nvar a = \"abc\"[1:2]\n\nfunc main() {}\n",
    "package main\n\nvar a = \"1\"[:]\n\nfunc main() {}\n",
    "package main\n\nvar a interface{} = 1\n\nvar b = a.(int)\n\nfunc main() {}\n",
    "package main\n\nvar a error\n\nvar b = a.(interface{ m() })\n\nfunc main() {}\n",
    "package main\n\nvar a = bool(true)\n\nfunc main() {}\n",
    "package main\n\nvar a = []int{1}\n\nfunc main() {}\n",
    "package main\n\nvar a = struct{ x, y int }{1, 2}\n\nfunc main() {}\n",
    "package main\n\nvar a = map[int]int{1: 1}\n\nfunc main() {}\n",
    "package main\n\nvar a = map[interface{}]int{interface{}(1): 1, interface{}(1): 2}\n\nfunc main() {}\n",
    "package main\n\nvar a error = nil\n\nfunc main() {}\n",
    "package main\n\nvar a = len(\"1\")\n\nfunc main() {}\n",
    "package main\n\nvar a = cap([]int{})\n\nfunc main() {}\n",
    "package main\n\nfunc f() { f() }\n\nfunc main() {}\n",
    "package main\n\nfunc f(a []int) { _ = append(a, 1) }\n\nfunc main() {}\n",
    "package main\n\nfunc f(a int) {\n\ta, b := 1, 2\n\t_ = b\n}\n\nfunc main() {}\n",
    "package main\n\nfunc f() (a int) {\n\t{\n\t\ta = 1\n\t\treturn\n\t}\n}\n\nfunc main() {}\n",
    "package main\n\nfunc f(a []int) {\n\tfor range a {\n\t}\n}\n\nfunc main() {}\n",
    "package main\n\nfunc f(a chan int) {\n\tfor b := range a {\n\t\t_ = b\n\t}\n}\n\nfunc main() {}\n",
    "package main\n\nfunc f(a int) {\n\tswitch a {\n\tcase 1, 2:\n\t}\n}\n\nfunc main() {}\n",
    "package main\n\nfunc f(a interface{}) {\n\tswitch a {\n\tcase interface{}(1), interface{}(1):\n\t}\n}\n\nfunc main() {}\n",
    "package main\n\nfunc f() {\n\tswitch {\n\tdefault:\n\t}\n}\n\nfunc main() {}\n",
    "package main\n\nfunc f(a chan<- int) { a <- 1 }\n\nfunc main() {}\n",
    "package main\n\nfunc f(a chan int) {\n\tselect {\n\tcase <-a:\n\t}\n}\n\nfunc main() {}\n",
    "package main\n\nfunc f() { defer recover() }\n\nfunc main() {}\n",
    "package main\n\nfunc f() { go f() }\n\nfunc main() {}\n",
    "package main\n\nfunc f(a bool) {\n\tif a {\n\t}\n}\n\nfunc main() {}\n",
    "package main\n\nfunc f(a []int) { g(a...) }\n\nfunc g(a ...int) {}\n\nfunc main() {}\n",
    "package main\n\nfunc f() {\na:\n\tfor {\n\t\tbreak a\n\t}\n}\n\nfunc main() {}\n",
    "package main\n\nfunc f() {\na:\n\tfor {\n\t\tcontinue a\n\t}\n}\n\nfunc main() {}\n",
    "package main\n\nfunc f() int {\n\tfor {\n\t}\n}\n\nfunc main() {}\n",
    "package main\n\nfunc f() {\n\ta := 1\n\t_ = a\n}\n\nfunc main() {}\n",
    "package main\n\nimport \"errors\"\n\nvar a = errors.New(\"1\")\n\nfunc main() {}\n",
    "package main\n\nfunc f() {\n\tfor {\n\t\tbreak\n\t}\n}\n\nfunc main() {}\n",
    "package main\n\nfunc f() {\n\tswitch {\n\tdefault:\n\t\tbreak\n\t}\n}\n\nfunc main() {}\n",
    "package main\n\nvar a = f()\n\nvar b = a\n\nfunc f() int { return 1 }\n\nfunc main() {}\n",
];
