//! Bitvectors: the calls that the tables have no rows of, each once.

use crate::expected::expect;
use smt_bits::{
    BitVec, EIGHT, Fin, HUNDRED_TWENTY_EIGHT, ONE, SIXTEEN, SIXTY_FOUR, TWO, Width, nat,
};

#[test]
fn numbers_with_signs_are_read_back(rt: HostRuntime) {
    let least = BitVec::int_min(HUNDRED_TWENTY_EIGHT).to_int();
    expect(&rt, least == i128::MIN, "int_min of 128 bits");
    let wrapped = BitVec::of_i128(EIGHT, -300).to_int();
    expect(&rt, wrapped == -44, "of_i128 of -300");
    expect(&rt, BitVec::signed_min(ONE) == -1, "signed_min");
    let greatest = BitVec::signed_max(SIXTY_FOUR);
    expect(&rt, greatest == 9223372036854775807, "signed_max");
    expect(&rt, BitVec::overflows(EIGHT, &128), "128 overflows");
    expect(
        &rt,
        !BitVec::overflows(EIGHT, &-128),
        "-128 does not overflow",
    );
}

#[test]
fn numbers_are_read_back(rt: HostRuntime) {
    let least = BitVec::of_int(HUNDRED_TWENTY_EIGHT, i128::MIN).to_nat();
    expect(&rt, least == 1 << 127, "of_int of the least number");
    let wrapped = BitVec::of_int(EIGHT, -300).to_nat();
    expect(&rt, wrapped == 212, "of_int of -300");
    let ten = BitVec::of_u128(Width::new(4).unwrap_or(ONE), 10);
    expect(&rt, ten.not().to_nat() == 5, "not");
    expect(&rt, ten.neg().to_nat() == 6, "neg");
    let longer = BitVec::zero_extend(&ten, SIXTEEN);
    expect(&rt, *longer.as_nat() == 10, "zero_extend to 16 bits");
    let shorter = BitVec::zero_extend(&ten, TWO);
    expect(&rt, *shorter.as_nat() == 2, "zero_extend to two bits");
    let bounded = Fin::try_new(nat(33), nat(32)).map_or(0, |f| f.to_nat());
    expect(&rt, bounded == 32, "a number below 33");
}
