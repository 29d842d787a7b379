use crate::row::Row;
use crate::rows::row_said;
use crate::size_line::SizeLine;
use cj_base::Text;
use cj_formats::SizesCause;
use cj_kvn::{LineKind, Refused};
use std::alloc::Global;
use std::collections::BTreeSet;
use std::marker::Model;

/// The sizes that the lines so far say, and their designators, which stand in the bytes of the file, in byte order.
#[derive(Drop)]
pub(crate) struct SizesDraft<'a> {
    sizes: Vec<SizeLine>,
    ids: BTreeSet<&'a [u8]>,
}

impl<'a> Model for SizesDraft<'a> {
    ghost use Rattle.std.specs.Prelude.{List};
    ghost use Rattle.cj_sizes.specs.Readers.{HasIds};
    ghost use Rattle.cj_sizes.specs.Sizes.{Size, sizes_of};

    ghost Value = { List Size };

    ghost view = { λ d. sizes_of d.sizes.items };

    ghost invariant = { λ d. HasIds d.ids (sizes_of d.sizes.items) };
}

impl<'a> SizesDraft<'a> {
    ghost use Rattle.std.specs.Prelude.{◌≡◌, ◌^◌, ◌<◌, [], length};
    ghost use Rattle.cj_kvn.specs.Lines.{KindIsWithin, form_at};
    ghost use Rattle.cj_sizes.specs.Reading.{with_line, with_size};
    ghost use Rattle.cj_kvn.specs.Faults.{Follows};
    ghost use Rattle.cj_sizes.specs.Readers.{row_of};
    ghost use Rattle.cj_sizes.specs.Sizes.{sizes_of};

    pub(crate) fn new(alloc: Global) -> Self
        ensures { result ≡ [] }
    {
        SizesDraft {
            sizes: Vec::new(alloc),
            ids: BTreeSet::new(alloc),
        }
    }

    /// The sizes with what a further line says.
    #[tactic(auto, unfolding(crate::specs::Reading::with_line))]
    pub(crate) fn with_line(
        self,
        alloc: Global,
        bytes: &'a [u8],
        kind: LineKind,
    ) -> Result<Self, Refused<SizesCause>>
        requires within { KindIsWithin bytes.now kind }
        requires short { length bytes.now < 2 ^ 32 }
        ensures { Follows (λ next. next) result (with_line self.entry (form_at bytes.now kind)) }
    {
        match kind {
            LineKind::Blank | LineKind::Comment => Ok(self),
            LineKind::Mark(_) | LineKind::Pair { .. } => Err(Refused::Because(SizesCause::Form)),
            LineKind::Row { text } => self.with_row(alloc, row_said(bytes, text)?),
        }
    }

    /// The sizes with a further one, whose designator was not given before.
    fn with_row(self, alloc: Global, row: Row<'a>) -> Result<Self, Refused<SizesCause>>
        ensures { Follows (λ next. next) result (with_size self.entry (row_of row.entry)) }
    {
        let SizesDraft { mut sizes, mut ids } = self;
        if !ids.insert(row.id)? {
            return Err(Refused::Because(SizesCause::Twice));
        }
        sizes.push(SizeLine {
            id: Text::copy_of(alloc, row.id)?,
            radius: row.radius,
        })?;
        Ok(SizesDraft { sizes, ids })
    }

    pub(crate) fn into_sizes(self) -> Vec<SizeLine>
        ensures { sizes_of result.items ≡ self.entry }
    {
        self.sizes
    }
}
