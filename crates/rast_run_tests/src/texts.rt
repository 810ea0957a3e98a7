// Programs that are run in several orders.

// Two coins of potential 2, of which a process keeps 1 and spends 1.
pub(crate) const COINS: &str = "explicit
type coin = +{stop : 1, put : |{2}> coin}
type half = +{stop : 1, put : |{1}> half}
decl make : . |{4}- (x : coin)
proc x <- make = x.put ; pay x ; x.put ; pay x ; x.stop ; close x
decl halve : (y : coin) |- (x : half)
proc x <- halve y = case y (
    stop => wait y ; x.stop ; close x
  | put => get y ; work {1} ; x.put ; pay x ; x <- halve y )
decl main : . |{4}- (x : half)
proc x <- main = a <- make ; x <- halve a
exec main
";

// A number that comes one tick later with each part, and a session that is late by no tick.
pub(crate) const TICKS: &str = "explicit
type tick = +{z : 1, s : () tick}
decl late{t} : . |- (x : ({t}) 1)
proc x <- late{t} = delay {t} ; close x
decl main : . |- (x : tick)
proc x <- main = y <- late{0} ; wait y ; x.s ; delay {1} ; x.s ; delay {1} ; x.z ; close x
exec main
";

// The binary counter, least bit first.
pub(crate) const COUNTER: &str = "explicit
type bits = +{b0 : bits, b1 : bits, e : 1}
decl zero : . |- (x : bits)
proc x <- zero = x.e ; close x
decl inc : (y : bits) |- (x : bits)
proc x <- inc y = case y (
    b0 => x.b1 ; x <-> y
  | b1 => x.b0 ; z <- inc y ; x <-> z
  | e => x.b1 ; x.e ; wait y ; close x )
decl three : . |- (x : bits)
proc x <- three = a <- zero ; b <- inc a ; c <- inc b ; x <- inc c
";

// Numbers in unary, one handed on, and two of them joined.
pub(crate) const NUMBERS: &str = "explicit
type nat = +{z : 1, s : nat}
decl two : . |- (x : nat)
proc x <- two = x.s ; x.s ; x.z ; close x
decl fw : . |- (x : nat)
proc x <- fw = y <- two ; x <-> y
decl join : (a : nat) (b : nat) |- (x : nat)
proc x <- join a b = case a ( s => x.s ; x <- join b a | z => wait a ; x <-> b )
decl main : . |- (x : nat)
proc x <- main = a <- two ; b <- two ; x <- join a b
";

// A client that sends, through a forward.
pub(crate) const SINK: &str = "explicit
type sink = &{s : sink, z : 1}
decl eat : . |- (x : sink)
proc x <- eat = case x ( s => x <- eat | z => close x )
decl relay : . |- (x : sink)
proc x <- relay = y <- eat ; x <-> y
decl main : . |- (u : 1)
proc u <- main = x <- relay ; x.s ; x.z ; wait x ; close u
";
