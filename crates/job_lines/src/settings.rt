//! The settings of a job.
ghost use Rattle.std.specs.Prelude.{◌≡◌};
ghost use Rattle.job_lines.specs.Settings.{setting_fits, no_settings, setting_in, with_setting, default_setting, value_of};

/// A setting with a number, in words, steps and turns.
#[derive(Clone, Copy, Debug, PartialEq, Eq)]
pub enum Setting {
    Memory,
    Quantum,
    Turns,
}

/// The settings that were made.
#[derive(Clone, Copy, Debug, PartialEq, Eq)]
pub struct Settings {
    pub memory: Option<u32>,
    pub quantum: Option<u32>,
    pub turns: Option<u32>,
}

impl Setting {
    /// The number is within the limits of the setting.
    pub fn fits(self, number: u64) -> bool
        ensures { result ≡ setting_fits self number }
    {
        match self {
            Setting::Memory => 1 <= number && number <= 1_048_576,
            Setting::Quantum => 1 <= number && number <= 10_000,
            Setting::Turns => 1 <= number && number <= 1_000_000,
        }
    }
}

/// What a setting is where none is made.
fn default_setting(setting: Setting) -> u32
    ensures { result ≡ default_setting setting }
{
    match setting {
        Setting::Memory => 65_536,
        Setting::Quantum => 100,
        Setting::Turns => 100_000,
    }
}

impl Settings {
    /// Before the first setting.
    pub fn none() -> Settings
        ensures { result ≡ no_settings }
    {
        Settings {
            memory: None,
            quantum: None,
            turns: None,
        }
    }

    /// The number of a setting, if it was made.
    pub fn get(&self, setting: Setting) -> Option<u32>
        ensures { result ≡ setting_in setting self.now }
    {
        match setting {
            Setting::Memory => self.memory,
            Setting::Quantum => self.quantum,
            Setting::Turns => self.turns,
        }
    }

    /// Makes a setting.
    pub fn set(&mut self, setting: Setting, number: u32)
        ensures { self.new ≡ with_setting setting number self.old }
    {
        match setting {
            Setting::Memory => self.memory = Some(number),
            Setting::Quantum => self.quantum = Some(number),
            Setting::Turns => self.turns = Some(number),
        }
    }

    /// The number of a setting, made or not.
    pub fn value(&self, setting: Setting) -> u32
        ensures { result ≡ value_of setting self.now }
    {
        self.get(setting).unwrap_or(default_setting(setting))
    }
}
