ghost use Rattle.std.specs.Prelude.{◌≡◌, ◌+◌, ◌*◌, ◌-◌, ◌/◌, ◌<◌, pos, neg_ℤ};
ghost use Rattle.fs_quadratic.specs.CompleteQuotient.{IsCompleteQuotient, whole_part, excess};
ghost use Rattle.fs_quadratic.specs.Ring.{sign};

use crate::radicand::Field;
use std::cmp::Ordering;

// (m + √d)/a, a complete quotient of √d; `root` is the whole part of √d.
#[derive(Clone, Copy)]
pub(crate) struct CompleteQuotient {
    field: Field,
    root: u16,
    m: u16,
    a: u16,
    ghost complete: { IsCompleteQuotient field.d root m a },
}

impl CompleteQuotient {
    // √d itself.
    pub(crate) fn first(field: Field) -> CompleteQuotient
        ensures field { result.field ≡ field }
        ensures m { result.m ≡ 0 }
        ensures a { result.a ≡ 1 }
    {
        CompleteQuotient {
            field,
            root: field.d.isqrt(),
            m: 0,
            a: 1,
        }
    }

    fn whole_part(self) -> u16
        ensures { result ≡ whole_part self.root self.m self.a }
    {
        (self.root + self.m) / self.a
    }

    // One over what is left when its whole part is taken away.
    fn next(self) -> CompleteQuotient
        ensures field { result.field ≡ self.field }
        ensures m { result.m ≡ whole_part self.root self.m self.a * self.a - self.m }
        ensures a { result.a ≡ (self.field.d - result.m * result.m) / self.a }
    {
        let m = self.whole_part() * self.a - self.m;
        let a = (self.field.d - m * m) / self.a;
        CompleteQuotient {
            field: self.field,
            root: self.root,
            m,
            a,
        }
    }

    // How n/b compares with it; n/0 is above each number.
    pub(crate) fn compare_fraction(self, n: u128, b: u128) -> Ordering
        requires { 0 < n }
        ensures { result ≡ sign self.field.d (excess self.m self.a n b) }
    {
        if b == 0 {
            return Ordering::Greater;
        }
        match (n / b).cmp(&u128::from(self.whole_part())) {
            Ordering::Equal => self.next().compare_fraction(b, n % b).reverse(),
            order => order,
        }
    }
}
