use crate::functions::{clamp0, least, mix, most, square};
use host_table::HostMeaning;

/// The functions by their numbers: 0 is `clamp0`, 1 is `least`, 2 is `most`, 3 is `mix`, 4 is `square`, and any other
/// answers 0.
#[derive(Clone, Copy, Debug)]
pub struct MainHosts;

impl HostMeaning for MainHosts {
    ghost use Rattle.main_hosts.specs.Functions.{answer};

    ghost answer = { answer };

    #[tactic(auto, unfolding(crate::specs::Functions::answer))]
    fn run(number: u32, a: u64, b: u64) -> u64 {
        match number {
            0 => clamp0(a),
            1 => least(a, b),
            2 => most(a, b),
            3 => mix(a),
            4 => square(a),
            _ => 0,
        }
    }
}
