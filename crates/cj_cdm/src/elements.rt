//! The elements of a covariance.
ghost use Rattle.std.specs.Prelude.{◌≡◌, ◌<◌, slice_index_or};
ghost use Rattle.cj_cdm.specs.Elements.{element_of};
ghost use Rattle.cj_cdm.specs.Texts.{elements};

/// An element of a covariance: its key and its unit.
#[derive(Clone, Copy)]
pub(crate) struct Element {
    pub(crate) key: &'static [u8],
    pub(crate) unit: &'static [u8],
}

/// The elements of the lower triangle, row by row.
static ELEMENTS: [Element; 21] = [
    Element {
        key: b"CR_R",
        unit: b"m**2",
    },
    Element {
        key: b"CT_R",
        unit: b"m**2",
    },
    Element {
        key: b"CT_T",
        unit: b"m**2",
    },
    Element {
        key: b"CN_R",
        unit: b"m**2",
    },
    Element {
        key: b"CN_T",
        unit: b"m**2",
    },
    Element {
        key: b"CN_N",
        unit: b"m**2",
    },
    Element {
        key: b"CRDOT_R",
        unit: b"m**2/s",
    },
    Element {
        key: b"CRDOT_T",
        unit: b"m**2/s",
    },
    Element {
        key: b"CRDOT_N",
        unit: b"m**2/s",
    },
    Element {
        key: b"CRDOT_RDOT",
        unit: b"m**2/s**2",
    },
    Element {
        key: b"CTDOT_R",
        unit: b"m**2/s",
    },
    Element {
        key: b"CTDOT_T",
        unit: b"m**2/s",
    },
    Element {
        key: b"CTDOT_N",
        unit: b"m**2/s",
    },
    Element {
        key: b"CTDOT_RDOT",
        unit: b"m**2/s**2",
    },
    Element {
        key: b"CTDOT_TDOT",
        unit: b"m**2/s**2",
    },
    Element {
        key: b"CNDOT_R",
        unit: b"m**2/s",
    },
    Element {
        key: b"CNDOT_T",
        unit: b"m**2/s",
    },
    Element {
        key: b"CNDOT_N",
        unit: b"m**2/s",
    },
    Element {
        key: b"CNDOT_RDOT",
        unit: b"m**2/s**2",
    },
    Element {
        key: b"CNDOT_TDOT",
        unit: b"m**2/s**2",
    },
    Element {
        key: b"CNDOT_NDOT",
        unit: b"m**2/s**2",
    },
];

/// The element with this number, counted from 0.
pub(crate) fn element_at(index: usize) -> Element
    requires { index < 21 }
    ensures { element_of result ≡ slice_index_or elements index (element_of result) }
{
    ELEMENTS[index]
}
