use pk_base::Value;
use std::alloc::AllocError;

/// A literal's value.
pub struct Constant {
    pub value: Value,
    /// The leading bits of an address that are compared, where it has a prefix length: at most 32 or 128.
    pub prefix: Option<u8>,
    /// It is written as a string.
    pub quoted: bool,
}

// The destructor is written out here, and not wherever a constant is dropped.
impl Drop for Constant {
    fn drop(self) {
        let Constant {
            value: _value,
            prefix: _,
            quoted: _,
        } = self;
    }
}

impl Clone for Constant {
    ghost use Rattle.std.specs.Prelude.{◌≡◌};

    ghost is_clone = { λ constant copy. copy ≡ constant };

    fn clone(&self) -> Result<Constant, AllocError> {
        Ok(Constant {
            value: self.value.clone()?,
            prefix: self.prefix,
            quoted: self.quoted,
        })
    }
}
