//! The boxes of all objects as text, object by object.
ghost use Rattle.std.specs.Prelude.{◌≡◌, ◌<◌, ◌^◌, IfOk, flat_map, length};
ghost use Rattle.std.specs.List.{range_with_len};
ghost use Rattle.cj_formats.specs.declared.cert_version.CertVersion.{CertVersion};
ghost use Rattle.cj_case.specs.Boxes.{plain_rows};
ghost use Rattle.cj_cert_text.specs.ObjectTexts.{object_text};
ghost use Rattle.cj_cert_text.specs.Texts.{box_text};
ghost use Rattle.cj_cert.specs.Written.{lines_by_boxes};

use crate::object_boxes::ObjectBoxes;
use crate::printed_line::{BOX_ROOM, PrintedLine};
use cj_case::{AxisBox, BySlot};
use cj_cert::BoxLine;
use cj_formats::CertVersion;
use std::alloc::{AllocError, Global};

impl PrintedLine for ObjectBoxes<'_> {
    ghost text_by = { object_text };

    fn room(&self) -> usize {
        (self.slots as usize).saturating_mul(BOX_ROOM)
    }

    fn push_onto(&self, text: &mut Vec<u8>, version: CertVersion) -> Result<(), AllocError> {
        for slot in 0..self.slots {
            if let Some(area) = self.row[slot as usize] {
                let line = BoxLine {
                    object: self.object,
                    first: slot,
                    last: slot,
                    area,
                };
                line.push_onto(text, version)?;
            }
        }
        Ok(())
    }
}

/// The boxes of all objects, object by object.
pub(crate) fn boxes_by_object(
    alloc: Global,
    boxes: &BySlot<Option<AxisBox>>,
) -> Result<Vec<ObjectBoxes<'_>>, AllocError>
    requires { length boxes.now.rows < 2 ^ 32 }
    ensures { (version : CertVersion) → IfOk result (λ each. flat_map (object_text version) each.items
        ≡ flat_map (box_text version) (flat_map (lines_by_boxes (plain_rows boxes.now.rows) boxes.now.slots) (range_with_len 0 (length boxes.now.rows)))) }
{
    let count = boxes.objects() as u32;
    let mut each = Vec::with_capacity(alloc, count as usize)?;
    for object in 0..count {
        each.push(ObjectBoxes {
            row: boxes.of_object(object),
            object,
            slots: boxes.slots(),
        })?;
    }
    Ok(each)
}
