// The places of Laplace values, RFC 6716, section 4.3.2.1, for a pair that makes a model.
// A pair stays two numbers, as calls and theorems have it, so that `legal` stands in each contract: a struct would be made and opened in each function.
ghost use Rattle.std.specs.Prelude.{◌≡◌, Bool, true, ◌+◌, ◌*◌, ◌≤◌, ◌<◌};
ghost use Rattle.modes.specs.Laplace.{freq1, legal};
ghost use Rattle.laplace.specs.Chain.{first_step, next_step, walk, side, values_with_place, span_at, span_of, side_at, locate_at, locate, Proper};
ghost use Rattle.laplace.specs.Signed.{span_z};

// No invariant: `first_step` and `next_step`, and the theorems over `walk`, make this record of any numbers.
// The places of -i and i begin at fl, f + 1 for each.
#[derive(Clone, Copy)]
pub struct Step {
    pub fl: u32,
    pub f: u32,
    pub i: u32,
}

// A value, by its sign and size, and its places, from fl up to fh.
#[derive(Clone, Copy)]
pub struct Span {
    pub neg: bool,
    pub mag: u32,
    pub fl: u32,
    pub fh: u32,
}

// How many places, less one, a 1 has: ec_laplace_get_freq1.
fn freq1_of(fs: u32, decay: u32) -> u32
    requires { (fs ≤ 32736) × (decay ≤ 16384) }
    ensures { result ≡ freq1 fs decay }
{
    (32736 - fs) * (16384 - decay) / 32768
}

// The chain's first step.
fn first_of(fs: u32, decay: u32) -> Step
    requires { (fs ≤ 32736) × (decay ≤ 16384) }
    ensures { result ≡ first_step fs decay }
{
    Step {
        fl: fs,
        f: freq1_of(fs, decay),
        i: 1,
    }
}

impl Step {
    // The chain's next step.
    fn next(self, decay: u32) -> Step
        requires { (self.fl + 2 * self.f + 2 ≤ 32768) × (self.i ≤ 32) × (decay ≤ 16384) }
        ensures { result ≡ next_step decay self }
    {
        let w = 2 * self.f;
        Step {
            fl: self.fl + w + 2,
            f: w * decay / 32768,
            i: self.i + 1,
        }
    }
}

// Along the chain for as long as there is `more` to do, at most to its end.
fn walk<F: Fn(Step) -> bool>(fs: u32, decay: u32, more: F) -> Step
    requires model { legal fs decay ≡ true }
    requires asks { (s : Step) → s.fl + 2 * s.f + 2 ≤ 32768 → F.pre more s }
    ensures { (said : Step → Bool) → ((s : Step) (r : Bool) → s.fl + 2 * s.f + 2 ≤ 32768 → F.post more s r → r ≡ said s)
        → result ≡ walk said 32 decay (first_step fs decay) }
{
    let mut s = first_of(fs, decay);
    while 0 < s.f {
        if !more(s) {
            return s;
        }
        s = s.next(decay);
    }
    s
}

// How many values of a sign have a place from fl on, one each.
fn values_with_place(neg: bool, fl: u32) -> u32
    requires { fl ≤ 32766 }
    ensures { result ≡ values_with_place neg fl }
{
    if neg {
        (32768 - fl + 1) / 2
    } else {
        (32768 - fl) / 2
    }
}

impl Step {
    // The places of i + d, or of its negative.
    fn side(self, neg: bool, d: u32) -> Span
        requires { (self.fl + 2 * d + (2 * self.f + 2) ≤ 98304) × (self.i + d ≤ 65536) }
        ensures { result ≡ side neg self d }
    {
        let fl = self.fl + 2 * d;
        if neg {
            Span {
                neg: true,
                mag: self.i + d,
                fl,
                fh: fl + (self.f + 1),
            }
        } else {
            Span {
                neg: false,
                mag: self.i + d,
                fl: fl + (self.f + 1),
                fh: fl + (2 * self.f + 2),
            }
        }
    }

    // What a writer of a, or of its negative, finds here.
    fn coded(self, neg: bool, a: u32) -> Span
        requires { (self.fl + 2 * self.f + 2 ≤ 32768) × (self.i ≤ 33) × (self.i ≤ a) }
        ensures { result ≡ span_at neg a self }
    {
        if 0 < self.f {
            self.side(neg, 0)
        } else {
            let most = values_with_place(neg, self.fl) - 1;
            self.side(neg, most.min(a - self.i))
        }
    }

    // Of the values i + d and its negative, the one that has the place fm.
    fn side_at(self, fm: u32, d: u32) -> Span
        requires { (self.fl + 2 * d + (2 * self.f + 2) ≤ 98304) × (self.i + d ≤ 65536) }
        ensures { result ≡ side_at fm self d }
    {
        self.side(fm < self.fl + 2 * d + self.f + 1, d)
    }

    // What a reader of the place fm finds here.
    fn found(self, fm: u32) -> Span
        requires { (self.fl + 2 * self.f + 2 ≤ 32768) × (self.i ≤ 33) × (self.fl ≤ fm) × (fm < 32768) }
        ensures { result ≡ locate_at fm self }
    {
        if 0 < self.f {
            self.side_at(fm, 0)
        } else {
            self.side_at(fm, (fm - self.fl) / 2)
        }
    }
}

// The value that stands for a, or for its negative, and its places.
pub fn span_by(neg: bool, a: u32, fs: u32, decay: u32) -> Span
    requires { legal fs decay ≡ true }
    ensures { (result ≡ span_of neg a fs decay) × Proper result }
{
    if 0 < a {
        let s = walk(fs, decay, |s| s.i < a);
        s.coded(neg, a)
    } else {
        Span {
            neg: false,
            mag: 0,
            fl: 0,
            fh: fs,
        }
    }
}

// The value that stands for a whole number, and its places.
pub fn span_of(value: i32, fs: u32, decay: u32) -> Span
    requires { legal fs decay ≡ true }
    ensures { (result ≡ span_z value fs decay) × Proper result }
{
    span_by(value < 0, laws::unsigned_abs(value), fs, decay)
}

// The value that has the place fm, and its places.
pub fn locate(fm: u32, fs: u32, decay: u32) -> Span
    requires { (legal fs decay ≡ true) × (fm < 32768) }
    ensures { (result ≡ locate fm fs decay) × Proper result × (result.fl ≤ fm) × (fm < result.fh) }
{
    if fm < fs {
        Span {
            neg: false,
            mag: 0,
            fl: 0,
            fh: fs,
        }
    } else {
        let s = walk(fs, decay, |s| s.fl + 2 * s.f + 2 <= fm);
        s.found(fm)
    }
}
