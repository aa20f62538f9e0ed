// How long the search took, over several lists.
use draws::DrawList;
use finder::FullFinder;
use load::Amps;
use search::Search;
use std::io;
use std::time::{Clock, Instant};

#[derive(Clone, Copy, Debug, Default)]
pub struct Timing {
    pub lists: u32,
    // The peaks added up.
    pub peaks: u64,
    total: u64,
    pub worst: u64,
}

impl Timing {
    pub fn mean(self) -> u64 {
        self.total.checked_div(u64::from(self.lists)).unwrap_or(0)
    }

    // Times one search more.
    pub fn measure(&mut self, rt: &impl Clock, list: &DrawList) -> io::Result<()> {
        let start = Instant::now(rt)?;
        let (peak, _) = FullFinder::<Amps>::find_any(&mut Search, list);
        let took = u64::try_from(start.elapsed(rt)?.as_nanos()).unwrap_or(u64::MAX);
        self.lists = self.lists.saturating_add(1);
        self.peaks = self.peaks.saturating_add(u64::from(peak));
        self.total = self.total.saturating_add(took);
        self.worst = self.worst.max(took);
        Ok(())
    }
}
