ghost use Rattle.std.specs.Prelude.{◌≡◌, ◌↔◌, IfOk, IsErr};
ghost use Rattle.fs_quadratic.specs.Radicand.{IsRadicand};

/// The numbers a + b·√d with fractions a and b, for a squarefree d from 2 to 999.
#[derive(Clone, Copy, Debug, PartialEq, Eq, Hash)]
pub struct Field {
    pub d: u16,
    pub ghost radicand: { IsRadicand d },
}

/// The number is the d of no field: it isn't squarefree, or not in 2..=999.
#[derive(Clone, Copy, Debug, PartialEq, Eq, Hash)]
pub struct BadField;

impl Field {
    /// The field of √d, or `BadField` exactly where d isn't squarefree or not in 2..=999.
    pub fn new(d: u16) -> Result<Field, BadField>
        ensures field { IfOk result (λ field. field.d ≡ d) }
        ensures bad { IsErr result ↔ ¬ IsRadicand d }
    {
        if !(2..=999).contains(&d) {
            return Err(BadField);
        }
        for k in 2..32 {
            if d % (k * k) == 0 {
                return Err(BadField);
            }
        }
        Ok(Field { d })
    }

    /// Its d.
    pub fn d(self) -> u16
        ensures { result ≡ self.d }
    {
        self.d
    }
}
