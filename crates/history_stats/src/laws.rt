ghost use Rattle.std.specs.Prelude.{◌≡◌};
ghost use Rattle.history_merge.specs.Initial.{HistoryView};
ghost use Rattle.history_stats.specs.declared.statistics.Statistics.{Statistics};
ghost use Rattle.history_stats.specs.Statistics.{AreStatisticsOf};

/// Proves that a history has only one statistics. The law is the contract; the body is empty.
pub fn a_history_has_one_statistics()
    ensures { (history : HistoryView) (a b : Statistics) → AreStatisticsOf history a
        → AreStatisticsOf history b → a ≡ b }
{}
