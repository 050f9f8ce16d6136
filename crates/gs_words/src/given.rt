// The options that were given so far.
ghost use Rattle.std.specs.Prelude.{◌≡◌};
ghost use Rattle.gs_words.specs.Words.{limit_of};

use gs_types::{
    FUEL_DEFAULT, FUEL_LIMIT, Settings, TRIES_DEFAULT, TRIES_LIMIT, WINDOW_DEFAULT, WINDOW_LIMIT,
};

/// An option of `run`.
#[derive(Clone, Copy)]
pub(crate) enum Flag {
    Fuel,
    Window,
    Tries,
}

/// The number of each option that was given.
#[derive(Clone, Copy)]
pub(crate) struct Given {
    pub fuel: Option<u64>,
    pub window: Option<u32>,
    pub tries: Option<u32>,
}

impl Flag {
    /// The greatest number that may stand with it; the least is 1.
    pub(crate) fn limit(self) -> u64
        ensures { result ≡ limit_of self }
    {
        match self {
            Flag::Fuel => FUEL_LIMIT,
            Flag::Window => WINDOW_LIMIT as u64,
            Flag::Tries => TRIES_LIMIT as u64,
        }
    }
}

impl Given {
    ghost use Rattle.std.specs.Prelude.{◌≡◌, ◌≤◌, None, is_some};
    ghost use Rattle.gs_words.specs.Words.{limit_of};
    ghost use Rattle.gs_words.specs.Given.{given_by, with_given, settings_by};

    pub(crate) fn none() -> Given
        ensures { result ≡ record { fuel = None; window = None; tries = None } }
    {
        Given {
            fuel: None,
            window: None,
            tries: None,
        }
    }

    pub(crate) fn has(&self, flag: Flag) -> bool
        ensures { result ≡ is_some (given_by self.now flag) }
    {
        match flag {
            Flag::Fuel => self.fuel.is_some(),
            Flag::Window => self.window.is_some(),
            Flag::Tries => self.tries.is_some(),
        }
    }

    /// The number goes with the option from then on.
    pub(crate) fn put(&mut self, flag: Flag, n: u64)
        requires { n ≤ limit_of flag }
        ensures { self.new ≡ with_given flag n self.old }
    {
        match flag {
            Flag::Fuel => self.fuel = Some(n),
            Flag::Window => self.window = Some(n as u32),
            Flag::Tries => self.tries = Some(n as u32),
        }
    }

    /// What was given, and else the defaults.
    pub(crate) fn settings(&self) -> Settings
        ensures { result ≡ settings_by self.now }
    {
        Settings {
            fuel: self.fuel.unwrap_or(FUEL_DEFAULT),
            window: self.window.unwrap_or(WINDOW_DEFAULT),
            tries: self.tries.unwrap_or(TRIES_DEFAULT),
        }
    }
}
