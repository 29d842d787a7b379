use crate::primaries::id_said;
use cj_base::Text;
use cj_formats::PrimariesCause;
use cj_kvn::{LineKind, Refused};
use std::alloc::Global;
use std::collections::BTreeSet;
use std::marker::Model;

/// The designators that the lines so far name, which stand in the bytes of the file, and the same in byte order.
#[derive(Drop)]
pub(crate) struct PrimariesDraft<'a> {
    ids: Vec<Text>,
    set: BTreeSet<&'a [u8]>,
}

impl<'a> Model for PrimariesDraft<'a> {
    ghost use Rattle.std.specs.Prelude.{List, ℕ};
    ghost use Rattle.cj_sizes.specs.Primaries.{Holds};

    ghost Value = { List (List ℕ) };

    ghost view = { λ d. d.ids.items };

    ghost invariant = { λ d. Holds d.set d.ids.items };
}

impl<'a> PrimariesDraft<'a> {
    ghost use Rattle.std.specs.Prelude.{◌≡◌, ◌^◌, ◌<◌, [], List, ℕ, length};
    ghost use Rattle.cj_kvn.specs.Lines.{KindIsWithin, form_at};
    ghost use Rattle.cj_kvn.specs.Faults.{Follows};
    ghost use Rattle.cj_sizes.specs.Primaries.{Holds, with_id, with_line};

    pub(crate) fn new(alloc: Global) -> Self
        ensures { result ≡ [] }
    {
        PrimariesDraft {
            ids: Vec::new(alloc),
            set: BTreeSet::new(alloc),
        }
    }

    /// The designators with what a further line says, where objects have the known ones.
    #[tactic(auto, unfolding(crate::specs::Primaries::with_line))]
    pub(crate) fn with_line(
        self,
        alloc: Global,
        known: &BTreeSet<&[u8]>,
        bytes: &'a [u8],
        kind: LineKind,
    ) -> Result<Self, Refused<PrimariesCause>>
        requires within { KindIsWithin bytes.now kind }
        requires short { length bytes.now < 2 ^ 32 }
        ensures { (ids : List (List ℕ)) → Holds known.now ids → Follows (λ next. next) result (with_line ids self.entry (form_at bytes.now kind)) }
    {
        match kind {
            LineKind::Blank | LineKind::Comment => Ok(self),
            LineKind::Mark(_) | LineKind::Pair { .. } => {
                Err(Refused::Because(PrimariesCause::Form))
            }
            LineKind::Row { text } => self.with_id(alloc, known, id_said(bytes, text)?),
        }
    }

    /// The designators with a further one, which was not named before and which an object has.
    fn with_id(
        self,
        alloc: Global,
        known: &BTreeSet<&[u8]>,
        id: &'a [u8],
    ) -> Result<Self, Refused<PrimariesCause>>
        ensures { (ids : List (List ℕ)) → Holds known.now ids → Follows (λ next. next) result (with_id ids self.entry id.now) }
    {
        let PrimariesDraft { mut ids, mut set } = self;
        if !set.insert(id)? {
            return Err(Refused::Because(PrimariesCause::Twice));
        }
        if !known.contains(id) {
            return Err(Refused::Because(PrimariesCause::Unknown));
        }
        ids.push(Text::copy_of(alloc, id)?)?;
        Ok(PrimariesDraft { ids, set })
    }

    pub(crate) fn into_ids(self) -> Vec<Text>
        ensures { result.items ≡ self.entry }
    {
        self.ids
    }
}
