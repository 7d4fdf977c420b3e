//! The tests, and what they are made with.

/// The result of a test that passes if a check over a new disk holds. Where an allocation is refused the disk differs, so each test
/// tries once more.
macro_rules! holds_over_disk {
    ($rt:expr, $check:ident $(, $given:expr)?) => {{
        let holds = $check(&$rt $(, $given)?)? || $check(&$rt $(, $given)?)?;
        assert!($rt; holds);
        Ok(())
    }};
}

mod disks;
mod other_bytes;
mod sessions;
mod streams;
mod sums;
mod systems;
mod text_lines;
mod texts;
mod updated_files;
