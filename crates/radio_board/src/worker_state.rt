//! What a worker does, as the threads see it that give it news, and wake it.

ghost use Rattle.std.specs.Prelude.{◌≡◌, ◌&&◌, not, if◌then◌else◌};
ghost use Rattle.radio_board.specs.Reports.{has_work_after_step, changed_number, step_of_news, step_to_wait};
ghost use Rattle.radio_board.specs.States.{has_news, waits, has_drawn, state_after_step, state_number};
ghost use Rattle.radio_board.specs.declared.worker_state.Step.TheVariants.{News, MuchNews, Wake, LieDown, Pause, EndRound};

/// What a worker does, in one word that all threads share. Each step of it is one change of that word:
///
/// | Step | Awake | Drawing | Asleep | Paused |
/// |---|---|---|---|---|
/// | `News` | has news | has news | Awake, has news: woken | has news |
/// | `MuchNews` | has news | has news | Awake, has news: woken | Awake, has news: woken |
/// | `Wake` | | | Awake: woken | Awake: woken |
/// | `LieDown` | Asleep, unless it has news | | | |
/// | `Pause` | Paused | | | |
/// | `BeginRound` | Drawing, no news | no news | Drawing | Drawing, no news |
/// | `EndRound` | | Awake | | |
///
/// An empty field changes nothing, and news stays where nothing is said of it. Others take the first three steps, the worker
/// itself `Wake` and the rest. So news that comes while a worker lies down is not lost. Before that step it keeps the worker
/// awake. After that step it wakes the worker, unless the worker pauses: then it waits for the end of the pause.
#[derive(Clone, Copy, Debug, PartialEq, Eq)]
pub enum WorkerState {
    /// It makes turns.
    Awake {
        /// Whether news waits for it.
        has_news: bool,
    },
    /// A round of draws has begun, and has not ended.
    Drawing {
        /// Whether news has come since it began.
        has_news: bool,
    },
    /// It waits, and is woken by news.
    Asleep,
    /// It waits, and is not woken by news.
    Paused {
        /// Whether news waits for it.
        has_news: bool,
    },
}

/// What changes a worker's state.
#[derive(Clone, Copy, Debug, PartialEq, Eq)]
pub enum Step {
    /// Its listeners may have news.
    News,
    /// They may have news, and much of it.
    MuchNews,
    /// It waits no more.
    Wake,
    /// It waits, unless it has news.
    LieDown,
    /// It waits, whether it has news or not.
    Pause,
    /// Its listeners begin to draw.
    BeginRound,
    /// Each of them has drawn all that there was.
    EndRound,
}

impl Step {
    /// Returns the step by which a worker waits, with news or only without it.
    pub(crate) fn to_wait(is_paused: bool) -> Step
        ensures { result ≡ step_to_wait is_paused }
    {
        if is_paused {
            Step::Pause
        } else {
            Step::LieDown
        }
    }

    /// Returns the step by which a worker gets news, by whether much has come.
    pub(crate) fn of_news(is_much: bool) -> Step
        ensures { result ≡ step_of_news is_much }
    {
        if is_much { Step::MuchNews } else { Step::News }
    }
}

impl WorkerState {
    /// Returns the state after a step.
    // rule: News wakes once
    pub fn after(self, step: Step) -> WorkerState
        ensures { result ≡ state_after_step step self }
    {
        match step {
            Step::News => self.with_news(false),
            Step::MuchNews => self.with_news(true),
            Step::Wake => self.woken(),
            Step::LieDown => self.laid_down(),
            Step::Pause => self.paused(),
            Step::BeginRound => WorkerState::Drawing { has_news: false },
            Step::EndRound => self.drawn(),
        }
    }

    /// Returns the state once it got news.
    fn with_news(self, is_much: bool) -> WorkerState
        ensures { result ≡ (if is_much then state_after_step MuchNews self else state_after_step News self) }
    {
        match self {
            WorkerState::Awake { .. } | WorkerState::Asleep => WorkerState::Awake {
                has_news: true,
            },
            WorkerState::Drawing { .. } => WorkerState::Drawing { has_news: true },
            WorkerState::Paused { .. } if is_much => WorkerState::Awake { has_news: true },
            WorkerState::Paused { .. } => WorkerState::Paused { has_news: true },
        }
    }

    /// Returns the state once it waits no more.
    fn woken(self) -> WorkerState
        ensures { result ≡ state_after_step Wake self }
    {
        match self {
            WorkerState::Awake { .. } | WorkerState::Drawing { .. } => self,
            WorkerState::Asleep => WorkerState::Awake { has_news: false },
            WorkerState::Paused { has_news } => WorkerState::Awake { has_news },
        }
    }

    /// Returns the state once it has lain down, unless it has news.
    fn laid_down(self) -> WorkerState
        ensures { result ≡ state_after_step LieDown self }
    {
        match self {
            WorkerState::Awake { has_news: false } => WorkerState::Asleep,
            WorkerState::Awake { has_news: true } => self,
            WorkerState::Drawing { .. } | WorkerState::Asleep | WorkerState::Paused { .. } => self,
        }
    }

    /// Returns the state once it has lain down, with news or without.
    fn paused(self) -> WorkerState
        ensures { result ≡ state_after_step Pause self }
    {
        match self {
            WorkerState::Awake { has_news } => WorkerState::Paused { has_news },
            WorkerState::Drawing { .. } | WorkerState::Asleep | WorkerState::Paused { .. } => self,
        }
    }

    /// Returns the state once a round is over.
    fn drawn(self) -> WorkerState
        ensures { result ≡ state_after_step EndRound self }
    {
        match self {
            WorkerState::Drawing { has_news } => WorkerState::Awake { has_news },
            WorkerState::Awake { .. } | WorkerState::Asleep | WorkerState::Paused { .. } => self,
        }
    }

    /// Returns whether news waits for it.
    pub fn has_news(self) -> bool
        ensures { result ≡ has_news self }
    {
        match self {
            WorkerState::Awake { has_news } | WorkerState::Drawing { has_news } => has_news,
            WorkerState::Asleep => false,
            WorkerState::Paused { has_news } => has_news,
        }
    }

    /// Returns whether it waits until it is woken, or for some time.
    pub fn waits(self) -> bool
        ensures { result ≡ waits self }
    {
        match self {
            WorkerState::Awake { .. } | WorkerState::Drawing { .. } => false,
            WorkerState::Asleep | WorkerState::Paused { .. } => true,
        }
    }

    /// Returns whether a step ends its wait.
    pub(crate) fn is_woken_by(self, step: Step) -> bool
        ensures { result ≡ (waits self && not (waits (state_after_step step self))) }
    {
        self.waits() && !self.after(step).waits()
    }

    /// Returns whether a worker that takes a step to wait has something to do all the same: it does not wait after it, or newcomers
    /// wait for it.
    pub(crate) fn has_to_do(self, step: Step, newcomers: usize) -> bool
        ensures { result ≡ has_work_after_step step self newcomers }
    {
        !self.after(step).waits() || newcomers > 0
    }

    /// Returns whether its listeners have drawn all the news that it got.
    // rule: Closing of a source
    pub fn has_drawn(self) -> bool
        ensures { result ≡ has_drawn self }
    {
        match self {
            WorkerState::Awake { has_news } => !has_news,
            WorkerState::Drawing { .. } => false,
            WorkerState::Asleep => true,
            WorkerState::Paused { has_news } => !has_news,
        }
    }

    /// Returns the number of the state, by which it is shared.
    pub(crate) fn number(self) -> u64
        ensures { result ≡ state_number self }
    {
        match self {
            WorkerState::Awake { has_news: false } => 0,
            WorkerState::Awake { has_news: true } => 1,
            WorkerState::Drawing { has_news: false } => 2,
            WorkerState::Drawing { has_news: true } => 3,
            WorkerState::Asleep => 4,
            WorkerState::Paused { has_news: false } => 5,
            WorkerState::Paused { has_news: true } => 6,
        }
    }

    /// Returns the state of this number: one that has news, if there is none.
    pub(crate) fn of(number: u64) -> WorkerState
        ensures { (state : WorkerState) → number ≡ state_number state → result ≡ state }
    {
        match number {
            0 => WorkerState::Awake { has_news: false },
            1 => WorkerState::Awake { has_news: true },
            2 => WorkerState::Drawing { has_news: false },
            3 => WorkerState::Drawing { has_news: true },
            4 => WorkerState::Asleep,
            5 => WorkerState::Paused { has_news: false },
            6 => WorkerState::Paused { has_news: true },
            _ => WorkerState::Awake { has_news: true },
        }
    }

    /// Returns the number of the state after a step, of the state of this number. `None` if it is the same.
    pub(crate) fn changed_number(number: u64, step: Step) -> Option<u64>
        ensures { (state : WorkerState) → number ≡ state_number state → result ≡ changed_number step state }
    {
        let after = WorkerState::of(number).after(step).number();
        if after == number { None } else { Some(after) }
    }
}
