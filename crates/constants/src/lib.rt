// Step one's tables: Love numbers (001, Table 6.1) and the normalization factors (001, eq. 2). A `const` has no contract: each table's rule is shown
// of the function that answers it.

#![tactic(auto)]

ghost use Rattle.std.specs.Prelude.{◌≡◌};
ghost use Rattle.constants.specs.Love.{loves, loves3};
ghost use Rattle.constants.specs.Norms.{norms};

use choices::LoveModel;
use doubles::Complex;

// k of degree 2, and k+ from degree 2 to degree 4.
#[derive(Clone, Copy)]
pub struct Loves {
    pub k20: Complex,
    pub k21: Complex,
    pub k22: Complex,
    pub plus0: f64,
    pub plus1: f64,
    pub plus2: f64,
}

// k of degree 3.
#[derive(Clone, Copy)]
pub struct Loves3 {
    pub k30: Complex,
    pub k31: Complex,
    pub k32: Complex,
    pub k33: Complex,
}

// A value at each degree and order, of degree 2 and 3.
#[derive(Clone, Copy)]
pub struct PerTerm<T> {
    pub t20: T,
    pub t21: T,
    pub t22: T,
    pub t30: T,
    pub t31: T,
    pub t32: T,
    pub t33: T,
}

const ELASTIC: Loves = Loves {
    k20: Complex {
        re: 0.29525,
        im: 0.0,
    },
    k21: Complex {
        re: 0.29470,
        im: 0.0,
    },
    k22: Complex {
        re: 0.29801,
        im: 0.0,
    },
    plus0: -0.00087,
    plus1: -0.00079,
    plus2: -0.00057,
};

const ANELASTIC: Loves = Loves {
    k20: Complex {
        re: 0.30190,
        im: 0.0,
    },
    k21: Complex {
        re: 0.29830,
        im: -0.00144,
    },
    k22: Complex {
        re: 0.30102,
        im: -0.00130,
    },
    plus0: -0.00089,
    plus1: -0.00080,
    plus2: -0.00057,
};

// Of both models.
const DEGREE_3: Loves3 = Loves3 {
    k30: Complex { re: 0.093, im: 0.0 },
    k31: Complex { re: 0.093, im: 0.0 },
    k32: Complex { re: 0.093, im: 0.0 },
    k33: Complex { re: 0.094, im: 0.0 },
};

const NORMS: PerTerm<f64> = PerTerm {
    t20: 2.23606797749979,
    t21: 1.2909944487358056,
    t22: 0.6454972243679028,
    t30: 2.6457513110645907,
    t31: 1.0801234497346435,
    t32: 0.3415650255319866,
    t33: 0.13944333775567927,
};

pub fn loves_of(model: LoveModel) -> Loves
    ensures { result ≡ loves model }
{
    match model {
        LoveModel::Elastic => ELASTIC,
        LoveModel::Anelastic => ANELASTIC,
    }
}

pub fn loves_3() -> Loves3
    ensures { result ≡ loves3 }
{
    DEGREE_3
}

// N of each degree and order.
pub fn norms_of() -> PerTerm<f64>
    ensures { result ≡ norms }
{
    NORMS
}
