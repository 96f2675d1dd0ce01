// Values as the numbers that a line about a failure tells.

pub trait Told {
    fn told(&self) -> u64;
}

impl Told for u64 {
    fn told(&self) -> u64 {
        *self
    }
}

impl Told for usize {
    fn told(&self) -> u64 {
        *self as u64
    }
}

impl Told for () {
    fn told(&self) -> u64 {
        0
    }
}

// What is told where there is no value.
const NOTHING: u64 = 1000000;

impl<T: Told> Told for Option<T> {
    fn told(&self) -> u64 {
        match self {
            Some(value) => value.told(),
            None => NOTHING,
        }
    }
}

impl<T: Told, E: Told> Told for Result<T, E> {
    fn told(&self) -> u64 {
        match self {
            Ok(value) => value.told(),
            Err(error) => error.told(),
        }
    }
}
