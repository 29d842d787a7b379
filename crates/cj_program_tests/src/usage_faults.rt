//! What is wrong with command lines.
use cj_words::{Opt, UsageFault};

pub const WORDS: Option<UsageFault> = Some(UsageFault::Words);

pub const BAD_THRESHOLD: Option<UsageFault> = Some(UsageFault::Value {
    option: Opt::Threshold,
});

pub const BAD_FROM: Option<UsageFault> = Some(UsageFault::Value { option: Opt::From });

pub const BAD_TO: Option<UsageFault> = Some(UsageFault::Value { option: Opt::To });

pub const BAD_SUFFIX: Option<UsageFault> = Some(UsageFault::Value {
    option: Opt::Suffix,
});

pub const BAD_CELLS: Option<UsageFault> = Some(UsageFault::Value { option: Opt::Cells });

pub const BAD_SIZES: Option<UsageFault> = Some(UsageFault::Value { option: Opt::Sizes });

pub const BAD_PRIMARIES: Option<UsageFault> = Some(UsageFault::Value {
    option: Opt::Primaries,
});

pub const BAD_WORKERS: Option<UsageFault> = Some(UsageFault::Value {
    option: Opt::Workers,
});

pub const BAD_CERT: Option<UsageFault> = Some(UsageFault::Value { option: Opt::Cert });

pub const BAD_ORIGINATOR: Option<UsageFault> = Some(UsageFault::Value {
    option: Opt::Originator,
});

pub const BAD_VERSION: Option<UsageFault> = Some(UsageFault::Value {
    option: Opt::CertVersion,
});

pub const BAD_UPDATE: Option<UsageFault> = Some(UsageFault::Value {
    option: Opt::Update,
});

pub const BAD_REPORT: Option<UsageFault> = Some(UsageFault::Value {
    option: Opt::Report,
});

pub const BAD_SEED: Option<UsageFault> = Some(UsageFault::Value { option: Opt::Seed });

pub const BAD_OBJECTS: Option<UsageFault> = Some(UsageFault::Value {
    option: Opt::Objects,
});

pub const BAD_MINUTES: Option<UsageFault> = Some(UsageFault::Value {
    option: Opt::Minutes,
});

pub const BAD_OUT: Option<UsageFault> = Some(UsageFault::Value { option: Opt::Out });

pub const BAD_WITHIN: Option<UsageFault> = Some(UsageFault::Value {
    option: Opt::Within,
});

pub const BAD_CERT_DIR: Option<UsageFault> = Some(UsageFault::Value {
    option: Opt::CertDir,
});
