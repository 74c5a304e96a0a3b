// Masked inversion in the tower, by the formulas of document 000, 4.2.4: x is a byte A covered by the mask r, and the answer is the
// inverse of A covered by r. In the tower the halves of A are covered by those of r, its norm and the inverse of that by the higher one.
// What is covered is looked up, and never xored with what covers it.
ghost use Rattle.std.specs.Prelude.{◌≡◌};
ghost use Rattle.beside.specs.Inversion.{masked_inverse};
ghost use Rattle.tower.specs.Tower.{covered_norm, covered_high, covered_low};

use crate::basis::{from_tower, to_tower};
use crate::half::Half;
use crate::tables;
use crate::tables::Tables;

pub fn tower_inverse(x: u8, r: u8) -> u8
    ensures { result ≡ masked_inverse x r }
{
    let squares = tables::squares();
    let sums = tables::sums();
    let products = tables::products();
    let inverses = tables::inverses();
    let tables = Tables::lent(&squares, &sums, &products, &inverses);
    let (xh, xl) = Half::both(to_tower(x));
    let (mh, ml) = Half::both(to_tower(r));
    let d = norm(tables, xh, xl, mh, ml);
    // (4.8): its inverse, covered by mh.
    let i = tables.inverse(d, mh);
    let h = high(tables, xh, mh, ml, i);
    let l = low(tables, xl, mh, ml, i, h);
    from_tower(h.joined(l))
}

// (4.7): the norm, covered by mh.
fn norm(tables: Tables, xh: Half, xl: Half, mh: Half, ml: Half) -> Half
    ensures { result.value ≡ covered_norm xh.value xl.value mh.value ml.value }
{
    tables.square(xh, mh)
        ^ tables.sum(xh, xl)
        ^ tables.product(xh, ml)
        ^ tables.product(xl, mh)
        ^ tables.product(mh ^ ml, ml)
}

// (4.9): the higher half of the answer, covered by mh. It takes the inverse covered by ml: the two masks are added first, so that the
// inverse is bare nowhere.
fn high(tables: Tables, xh: Half, mh: Half, ml: Half, i: Half) -> Half
    ensures { result.value ≡ covered_high xh.value mh.value ml.value i.value }
{
    let j = i ^ (mh ^ ml);
    tables.product(xh, j)
        ^ mh
        ^ tables.product(j, mh)
        ^ tables.product(xh, ml)
        ^ tables.product(mh, ml)
}

// (4.10): the lower half of the answer, covered by ml, with the higher one.
fn low(tables: Tables, xl: Half, mh: Half, ml: Half, i: Half, h: Half) -> Half
    ensures { result.value ≡ covered_low xl.value mh.value ml.value i.value h.value }
{
    tables.product(xl, i)
        ^ ml
        ^ tables.product(i, ml)
        ^ tables.product(xl, mh)
        ^ h
        ^ mh
        ^ tables.product(mh, ml)
}
