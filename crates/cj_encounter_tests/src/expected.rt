//! The message of two tracks that cross at one kilometre.
use std::alloc::{AllocError, Global};

const HEADING: &[u8] = b"CCSDS_CDM_VERS = 1.0
CREATION_DATE = 2025-01-02T00:00:00.000000
ORIGINATOR = CONJ
MESSAGE_ID = CONJ_000001
TCA = 2025-01-01T00:00:30.000000
MISS_DISTANCE = 1000.000000000 [m]
START_SCREEN_PERIOD = 2025-01-01T00:00:00.000000
STOP_SCREEN_PERIOD = 2025-01-01T00:01:00.000000
";

/// What is the same in both objects, from the first element of the covariance that is zero on.
const ZEROS: &[u8] = b"CN_R = 0.0E+00 [m**2]
CN_T = 0.0E+00 [m**2]
CN_N = 0.0E+00 [m**2]
CRDOT_R = 0.0E+00 [m**2/s]
CRDOT_T = 0.0E+00 [m**2/s]
CRDOT_N = 0.0E+00 [m**2/s]
CRDOT_RDOT = 0.0E+00 [m**2/s**2]
CTDOT_R = 0.0E+00 [m**2/s]
CTDOT_T = 0.0E+00 [m**2/s]
CTDOT_N = 0.0E+00 [m**2/s]
CTDOT_RDOT = 0.0E+00 [m**2/s**2]
CTDOT_TDOT = 0.0E+00 [m**2/s**2]
CNDOT_R = 0.0E+00 [m**2/s]
CNDOT_T = 0.0E+00 [m**2/s]
CNDOT_N = 0.0E+00 [m**2/s]
CNDOT_RDOT = 0.0E+00 [m**2/s**2]
CNDOT_TDOT = 0.0E+00 [m**2/s**2]
CNDOT_NDOT = 0.0E+00 [m**2/s**2]
";

/// What an object's block tells of it.
#[derive(Clone, Copy)]
struct Block<'a> {
    called: &'a [u8],
    id: &'a [u8],
    name: &'a [u8],
    file: &'a [u8],
    x: &'a [u8],
    y_dot: &'a [u8],
    z_dot: &'a [u8],
    /// The first three elements of the covariance.
    elements: [&'a [u8]; 3],
}

fn push_block(text: &mut Vec<u8>, block: Block) -> Result<(), AllocError> {
    let parts: [&[u8]; 25] = [
        b"OBJECT = ",
        block.called,
        b"\nOBJECT_DESIGNATOR = ",
        block.id,
        b"\nCATALOG_NAME = OEM\nOBJECT_NAME = ",
        block.name,
        b"\nINTERNATIONAL_DESIGNATOR = ",
        block.id,
        b"\nEPHEMERIS_NAME = ",
        block.file,
        b"\nCOVARIANCE_METHOD = CALCULATED\nMANEUVERABLE = N/A\nREF_FRAME = EME2000\nX = ",
        block.x,
        b" [km]\nY = 0.000000000000 [km]\nZ = 0.000000000000 [km]\nX_DOT = 0.000000000000 [km/s]\nY_DOT = ",
        block.y_dot,
        b" [km/s]\nZ_DOT = ",
        block.z_dot,
        b" [km/s]\nCOMMENT COVARIANCE EPOCH 2025-01-01T00:00:00.000000\nCR_R = ",
        block.elements[0],
        b" [m**2]\nCT_R = ",
        block.elements[1],
        b" [m**2]\nCT_T = ",
        block.elements[2],
        b" [m**2]",
        b"\n",
        ZEROS,
    ];
    for part in &parts {
        text.extend_from_slice(part)?;
    }
    Ok(())
}

/// The message of two tracks that cross at one kilometre.
pub fn crossing(alloc: Global) -> Result<Vec<u8>, AllocError> {
    let mut text = Vec::from_slice(alloc, HEADING)?;
    let first = Block {
        called: b"OBJECT1",
        id: b"2025-001A",
        name: b"SAT A",
        file: b"a.oem",
        x: b"7000.000000000000",
        y_dot: b"7.500000000000",
        z_dot: b"0.000000000000",
        elements: [b"3.3313494E+02", b"4.6189273E+02", b"6.7824216E+02"],
    };
    let second = Block {
        called: b"OBJECT2",
        id: b"2025-002A",
        name: b"SAT B",
        file: b"b.oem",
        x: b"7001.000000000000",
        y_dot: b"0.000000000000",
        z_dot: b"7.500000000000",
        elements: [b"1.0E+06", b"0.0E+00", b"0.0E+00"],
    };
    push_block(&mut text, first)?;
    push_block(&mut text, second)?;
    Ok(text)
}
