ghost use Rattle.std.specs.Prelude.{◌≤◌};
ghost use Rattle.cj_sizes.specs.Limits.{MAX_RADIUS};

/// What a row says. The designator stands in the bytes of the file.
#[derive(Clone, Copy)]
pub(crate) struct Row<'a> {
    pub(crate) id: &'a [u8],
    /// In nm.
    pub(crate) radius: u64,
    pub(crate) ghost within: { radius ≤ MAX_RADIUS },
}
