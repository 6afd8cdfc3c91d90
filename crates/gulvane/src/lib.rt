// The calls once more for C and Rust: each is thin over the proved call, and says the same. An
// answer goes as a struct, whose `refusal` is 0 or a refusal's number. The slices come one by one,
// each with its length, as C lends them; the structs that the calls take are made of them here, and
// what one struct holds is lent for one lifetime, 'w.
#![tactic(auto)]

mod distances;
mod drives;
mod overlays;
mod points;
mod results;

// A count, or a refusal. Where `refusal` is not 0 it is the refusal's number, and `count` is 0.
#[repr(C)]
#[derive(Clone, Copy)]
pub struct GulvaneCount {
    pub refusal: u32,
    pub count: usize,
}

// A distance, or a refusal. Where `refusal` is 0, `way` is 1 and `weight` the weight, or both are 0
// for no way.
#[repr(C)]
#[derive(Clone, Copy)]
pub struct GulvaneDistance {
    pub refusal: u32,
    pub way: u32,
    pub weight: u64,
}
