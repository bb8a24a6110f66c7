// E.7 in place, of any kind of value: along a line of cells, and along and down a grid of them.

ghost use Rattle.std.specs.Prelude.{◌≡◌, ◌+◌, ◌*◌, ◌-◌, ◌%◌, ◌^◌, ◌<◌, ◌≤◌, ◌+ℤ◌, length, set};
ghost use Rattle.std.specs.Int.Signed.{shr_z};
ghost use Rattle.whole.specs.Cells.{cell, Onto, OntoLine};
ghost use Rattle.wavelet.specs.Filter.{filter};
ghost use Rattle.wavelet.specs.Kinds.{steps_of};
ghost use Rattle.wavelet.specs.Lines.{line, Line, OntoGrid, Grid, GridWithin, level_cell};
ghost use Rattle.wavelet.specs.Runs.{step, Summable, Small, Liftable, lifted, SmallPair, paired, Pairable, pair_cell, Levelled, Midway, Onward};

use whole::Kind;

// What the neighbours give in Table E.6, at an even place and at an odd one: a quarter, or a half, of their sum and of a number that says how it is rounded. The shift
// rounds down, where a division would round toward zero.
fn quarter(l: i64, r: i64, more: i64) -> i64
    requires { Summable l r more }
    ensures { result ≡ shr_z (l +ℤ r +ℤ more) 4 }
{
    (l + r + more) >> 2
}

fn half(l: i64, r: i64, more: i64) -> i64
    requires { Summable l r more }
    ensures { result ≡ shr_z (l +ℤ r +ℤ more) 2 }
{
    (l + r + more) >> 1
}

// A kind's step at an even place: samples fall by a rounded quarter, numbers rise by its ceiling. The kind is the same in every turn of a loop, so that
// the choice leaves it.
fn even_of(kind: Kind, x: i64, l: i64, r: i64) -> i64
    requires { Small x l r }
    ensures { result ≡ (steps_of kind).even x l r }
{
    match kind {
        Kind::Samples => x - quarter(l, r, 2),
        Kind::Numbers => x + quarter(l, r, 3),
    }
}

// Its step at an odd place: both rise by a half, samples by its floor and numbers by its ceiling.
fn odd_of(kind: Kind, x: i64, l: i64, r: i64) -> i64
    requires { Small x l r }
    ensures { result ≡ (steps_of kind).odd x l r }
{
    match kind {
        Kind::Samples => x + half(l, r, 0),
        Kind::Numbers => x + half(l, r, 1),
    }
}

// Its step at a place that is b modulo 2.
fn step_of(kind: Kind, b: usize, x: i64, l: i64, r: i64) -> i64
    requires { Small x l r }
    ensures { result ≡ step (steps_of kind) b x l r }
{
    if b == 0 {
        even_of(kind, x, l, r)
    } else {
        odd_of(kind, x, l, r)
    }
}

// The step of the cell c, with the cells l and r beside it.
fn lift_one(cells: &mut [i64], kind: Kind, b: usize, c: usize, l: usize, r: usize)
    requires c_in_bounds { (c < length cells.old) × (l < length cells.old) × (r < length cells.old) }
    requires small { Small (cell cells.old c) (cell cells.old l) (cell cells.old r) }
    ensures { cells.new ≡ set cells.old c (step (steps_of kind) b (cell cells.old c) (cell cells.old l) (cell cells.old r)) }
{
    cells[c] = step_of(kind, b, cells[c], cells[l], cells[r]);
}

// The step at n cells from c on, s apart, with the cells beside them from l and from r on. There is no branch for a line's ends: callers say where the
// neighbours are.
fn lift(cells: &mut [i64], kind: Kind, b: usize, c: usize, l: usize, r: usize, s: usize, n: usize)
    requires { Liftable s n c l r cells.old }
    ensures { OntoLine c s n (lifted (steps_of kind) b s c l r cells.old) cells.old cells.new }
{
    for j in 0..n {
        let t = j * s;
        lift_one(cells, kind, b, c + t, l + t, r + t);
    }
}

// A pair: the even place t behind the odd place h, and then h itself, whose even neighbours are then both done. The even place's neighbours are `high`,
// which stands at h, and `next`; `before` is the even sample before h. The even sample that is made is handed over, to be the next pair's `before`.
fn pair_at(
    cells: &mut [i64],
    kind: Kind,
    h: usize,
    t: usize,
    before: i64,
    high: i64,
    next: i64,
) -> i64
    requires t_nonzero { (0 < t) × (h + t < length cells.old) }
    requires small_pair { SmallPair before high (cell cells.old (h + t)) next }
    ensures { (result ≡ (steps_of kind).even (cell cells.old (h + t)) high next) × OntoLine h t 2 (paired (steps_of kind) before high (cell cells.old (h + t)) next) cells.old cells.new }
{
    let c = h + t;
    let even = even_of(kind, cells[c], high, next);
    cells[h] = odd_of(kind, high, before, even);
    cells[c] = even;
    even
}

// A line in one run: each even sample as soon as the coefficient behind it is read, and the odd one before it right then. What the next pair needs of
// this one is carried and not read again. `first` is the line's first sample; places without a neighbour behind them are left to the caller.
fn pairs_along(cells: &mut [i64], kind: Kind, base: usize, stride: usize, n: usize, first: i64)
    requires line { Line base stride n (2 ^ 60) cells.old }
    requires first_value { first ≡ filter (steps_of kind) n (line base stride cells.old) 0 }
    ensures { OntoLine base stride (n - 1 - n % 2) (filter (steps_of kind) n (line base stride cells.old)) cells.old cells.new }
{
    let mut even = first;
    let mut high = cells[base + stride];
    for k in 0..n / 2 - 1 {
        let odd = base + (2 * k + 1) * stride;
        let next = cells[odd + 2 * stride];
        even = pair_at(cells, kind, odd, stride, even, high, next);
        high = next;
    }
    cells[base] = first;
}

// The same, with the literal stride where it is 1: the compiler then knows that the cells lie side by side.
fn pairs_of_line(cells: &mut [i64], kind: Kind, base: usize, stride: usize, n: usize, first: i64)
    requires line { Line base stride n (2 ^ 60) cells.old }
    requires first_value { first ≡ filter (steps_of kind) n (line base stride cells.old) 0 }
    ensures { OntoLine base stride (n - 1 - n % 2) (filter (steps_of kind) n (line base stride cells.old)) cells.old cells.new }
{
    if stride == 1 {
        pairs_along(cells, kind, base, 1, n, first);
    } else {
        pairs_along(cells, kind, base, stride, n, first);
    }
}

// One pair of two rows: the odd place h, the even place t behind it and the even sample t before it, with the even place's other neighbour at r.
fn pair_one(cells: &mut [i64], kind: Kind, t: usize, h: usize, r: usize)
    requires t_nonzero { (0 < t) × (t ≤ h) × (h + t < length cells.old) × (r < length cells.old) }
    requires small_pair { SmallPair (cell cells.old (h - t)) (cell cells.old h) (cell cells.old (h + t)) (cell cells.old r) }
    ensures { OntoLine h t 2 (paired (steps_of kind) (cell cells.old (h - t)) (cell cells.old h) (cell cells.old (h + t)) (cell cells.old r)) cells.old cells.new }
{
    let even = cells[h - t];
    let high = cells[h];
    let next = cells[r];
    pair_at(cells, kind, h, t, even, high, next);
}

// E.7 for one line of n cells, `stride` apart.
pub fn filter_line(cells: &mut [i64], kind: Kind, base: usize, stride: usize, n: usize)
    requires { Line base stride n (2 ^ 60) cells.old }
    ensures { OntoLine base stride n (filter (steps_of kind) n (line base stride cells.old)) cells.old cells.new }
{
    let high = cells[base + stride];
    let first = even_of(kind, cells[base], high, high);
    pairs_of_line(cells, kind, base, stride, n, first);
    let odd = base + (n - 1 - n % 2) * stride;
    if n % 2 == 0 {
        lift_one(cells, kind, 1, odd, odd - stride, odd - stride);
    } else {
        pair_one(cells, kind, stride, odd, odd);
    }
}

// A row of pairs: m of them, s apart.
fn pairs_down(cells: &mut [i64], kind: Kind, t: usize, h: usize, r: usize, s: usize, m: usize)
    requires { Pairable s m t h r cells.old }
    ensures { Onto (λ i. h + i.0 * t + i.1 * s) (λ i. (i.0 < 2) × (i.1 < m)) (pair_cell (steps_of kind) s t h r cells.old) cells.old cells.new }
{
    for j in 0..m {
        let x = j * s;
        pair_one(cells, kind, t, h + x, r + x);
    }
}

// The same, with the literal 1 where the pairs lie side by side.
fn pairs_of_rows(cells: &mut [i64], kind: Kind, t: usize, h: usize, r: usize, s: usize, m: usize)
    requires { Pairable s m t h r cells.old }
    ensures { Onto (λ i. h + i.0 * t + i.1 * s) (λ i. (i.0 < 2) × (i.1 < m)) (pair_cell (steps_of kind) s t h r cells.old) cells.old cells.new }
{
    if s == 1 {
        pairs_down(cells, kind, t, h, r, 1, m);
    } else {
        pairs_down(cells, kind, t, h, r, s, m);
    }
}

// A level's first rows: rows 0 and 1 filtered along, and then the columns at row 0, whose one neighbour is row 1.
fn level_top(cells: &mut [i64], kind: Kind, s: usize, m: usize, t: usize, n: usize)
    requires { Grid s m t n (length cells.old) × GridWithin s m t n (2 ^ 58) cells.old }
    ensures { Levelled (steps_of kind) s m t n cells.old 1 2 cells.new }
{
    filter_line(cells, kind, 0, s, m);
    filter_line(cells, kind, t, s, m);
    lift(cells, kind, 0, 0, t, t, s, m);
}

// Its next two rows, behind the odd row j: both filtered along, and then the columns at j and at the even row behind it.
fn level_pair(cells: &mut [i64], kind: Kind, s: usize, m: usize, t: usize, n: usize, j: usize)
    requires { Midway (steps_of kind) s m t n j cells.old × (j + 2 < n) }
    ensures { Onward (steps_of kind) s m t n j (j + 2) (j + 3) cells.old cells.new }
{
    let odd = j * t;
    let next = odd + 2 * t;
    filter_line(cells, kind, odd + t, s, m);
    filter_line(cells, kind, next, s, m);
    pairs_of_rows(cells, kind, t, odd, next, s, m);
}

// Its last rows: of an odd number, one more even row, whose one neighbour is the odd row j; of an even number, the columns at j are left.
fn level_end(cells: &mut [i64], kind: Kind, s: usize, m: usize, t: usize, n: usize, j: usize)
    requires { Midway (steps_of kind) s m t n j cells.old × (n ≤ j + 2) }
    ensures { Onward (steps_of kind) s m t n j n n cells.old cells.new }
{
    let odd = j * t;
    if j + 1 < n {
        filter_line(cells, kind, odd + t, s, m);
        pairs_of_rows(cells, kind, t, odd, odd, s, m);
    } else {
        lift(cells, kind, 1, odd, odd - t, odd - t, s, m);
    }
}

// E.7 for each of n rows, t apart, of m cells, s apart, and then for each column, in one run down: a row is filtered just before the columns come to it,
// and a column's steps go along its row, so that each cache line is fetched once and used whole.
pub fn level(cells: &mut [i64], kind: Kind, s: usize, m: usize, t: usize, n: usize)
    requires { Grid s m t n (length cells.old) × GridWithin s m t n (2 ^ 58) cells.old }
    ensures { OntoGrid s m t n (level_cell (steps_of kind) s m t n cells.old) cells.old cells.new }
{
    level_top(cells, kind, s, m, t, n);
    for k in 0..n / 2 - 1 {
        level_pair(cells, kind, s, m, t, n, 2 * k + 1);
    }
    level_end(cells, kind, s, m, t, n, n - 1 - n % 2);
}
