// What a command writes.
use clean_base::Seq;

/// The bytes of an output, and whether it has a leak line.
#[derive(Debug, Drop)]
pub struct Output {
    pub text: Seq<u8>,
    pub leaky: bool,
}
