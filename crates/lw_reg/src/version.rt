ghost use Rattle.std.specs.Prelude.{◌≡◌, ◌↔◌, Some};

/// The version of LwM2M that a client speaks.
#[derive(Clone, Copy, Debug, PartialEq, Eq, PartialOrd, Ord)]
pub enum Version {
    V10,
    V11,
}

impl Version {
    ghost use Rattle.lw_reg.specs.declared.version.Version.{Version as Versions};
    ghost use Rattle.lw_reg.specs.Version.{version_text};

    /// There is none for another text than `1.0` and `1.1`.
    pub fn read(text: &str) -> Option<Version>
        ensures { (v : Versions) → (result ≡ Some v) ↔ (text.now ≡ version_text v) }
    {
        match text {
            "1.0" => Some(Version::V10),
            "1.1" => Some(Version::V11),
            _ => None,
        }
    }

    /// `1.0` or `1.1`.
    pub fn as_str(&self) -> &'static str
        ensures { result.now ≡ version_text self.now }
    {
        match self {
            Version::V10 => "1.0",
            Version::V11 => "1.1",
        }
    }
}
